ghost use Rattle.std.specs.Prelude.{◌≡◌};
ghost use Rattle.ps_base.specs.TyView.{ty_view};
ghost use Rattle.ps_emitter.specs.Choices as choice;
ghost use Rattle.ps_emitter.specs.Giving.{element_of};
ghost use Rattle.ps_emitter.specs.Instructions.{named_by};

use crate::choices::by_type;
use ps_base::instr::Instr;
use ps_base::line::Line;
use ps_base::ty::Ty;

/// An instruction that names a constant.
#[derive(Clone, Copy)]
pub enum Naming<'a> {
    Text,
    Scope,
    Is,
    Make,
    Closure,
    Field { index: u32, ty: &'a Ty, line: Line },
    SetField { index: u32, ty: &'a Ty, line: Line },
    Fill { ty: &'a Ty, line: Line },
    List { ty: &'a Ty, count: u32, line: Line },
}

impl Naming<'_> {
    /// The instruction that names the constant of a number.
    pub fn of(self, c: u32) -> Instr
        ensures { result ≡ named_by self.entry c }
    {
        match self {
            Naming::Text => Instr::Text { c },
            Naming::Scope => Instr::Scope { c },
            Naming::Is => Instr::Is { c },
            Naming::Make => Instr::Make { c },
            Naming::Closure => Instr::Closure { c },
            Naming::Field { index, ty, line } => by_type(
                ty,
                Instr::FieldM { c, i: index, line },
                Instr::FieldP { c, i: index, line },
            ),
            Naming::SetField { index, ty, line } => by_type(
                ty,
                Instr::SetFieldM { c, i: index, line },
                Instr::SetFieldP { c, i: index, line },
            ),
            Naming::Fill { ty, line } => {
                by_element(ty, Instr::FillM { c, line }, Instr::FillP { c, line })
            }
            Naming::List { ty, count, line } => by_element(
                ty,
                Instr::ListM { c, n: count, line },
                Instr::ListP { c, n: count, line },
            ),
        }
    }
}

// The one for vectors of numbers, or the one for vectors of references.
fn by_element(ty: &Ty, m: Instr, p: Instr) -> Instr
    ensures { result ≡ choice.by_type (element_of (ty_view ty.now)) m p }
{
    match ty {
        Ty::Vector(element) => by_type(element, m, p),
        Ty::Int | Ty::Bool | Ty::Str | Ty::Pntr | Ty::Void | Ty::Proc(_) => p,
    }
}
