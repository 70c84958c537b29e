ghost use Rattle.std.specs.Prelude.{◌≡◌, ◌↔◌, IsTrue};
ghost use Rattle.ps_base.specs.TyView.{ty_view, ty_views};
ghost use Rattle.ps_type_text.specs.inside.Procedures.{procedure_view};

use ps_base::ty::{Signature, Ty};

/// Whether two types are the same. The recursion is as deep as procedures' types stand inside one
/// another: vectors of vectors have no limit, so their elements are compared by a loop.
#[cycle(same)]
pub fn same_type(a: &Ty, b: &Ty) -> bool
    ensures { IsTrue result ↔ (ty_view a.now ≡ ty_view b.now) }
{
    let mut left = a;
    let mut right = b;
    loop {
        match left {
            Ty::Int => return matches!(right, Ty::Int),
            Ty::Bool => return matches!(right, Ty::Bool),
            Ty::Str => return matches!(right, Ty::Str),
            Ty::Pntr => return matches!(right, Ty::Pntr),
            Ty::Void => return matches!(right, Ty::Void),
            Ty::Vector(element) => match right {
                Ty::Vector(other) => {
                    left = element;
                    right = other;
                }
                _ => return false,
            },
            Ty::Proc(signature) => match right {
                Ty::Proc(other) => return same_signature(signature, other),
                _ => return false,
            },
        }
    }
}

#[cycle(same)]
fn same_signature(a: &Signature, b: &Signature) -> bool
    ensures { IsTrue result ↔ (procedure_view a.now ≡ procedure_view b.now) }
{
    let same = same_types(a.parameters.as_slice(), b.parameters.as_slice());
    same && same_type(&a.gives, &b.gives)
}

#[cycle(same)]
fn same_types(a: &[Ty], b: &[Ty]) -> bool
    ensures { IsTrue result ↔ (ty_views a.now ≡ ty_views b.now) }
{
    if a.len() != b.len() {
        return false;
    }
    for i in 0..a.len() {
        if !same_type(&a[i], &b[i]) {
            return false;
        }
    }
    true
}
