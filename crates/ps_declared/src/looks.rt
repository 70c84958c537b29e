ghost use Rattle.std.specs.Prelude.{◌≡◌, option_map};
ghost use Rattle.std.specs.Borrow.{Bor};
ghost use Rattle.ps_base.specs.TyView.{ty_view};
ghost use Rattle.ps_tree.specs.Phrase.{phrase_of, groups_in};
ghost use Rattle.ps_tree.specs.PhraseLists.{maybe_in};
ghost use Rattle.ps_scope.specs.ps_typing.Checking.{name_in as name_in_of};
ghost use Rattle.ps_declared.specs.inside.Looks.{literal_in as literal_in_of};
ghost use Rattle.ps_declared.specs.inside.Views.{literal_of, maybe_lent};

use ps_base::line::Line;
use ps_base::ty::Ty;
use ps_tree::rough::{Group, Rough, RoughForm};

/// A procedure literal in the tree of a text.
#[derive(Clone, Copy)]
pub struct Literal<'a> {
    pub params: &'a [Group],
    pub gives: &'a Ty,
    pub s: &'a Rough,
    pub line: Line,
}

/// The name that a clause is, where it is one.
pub fn name_in(rough: &Rough) -> Option<&[u8]>
    ensures { option_map (λ (name : Bor _). name.now) result ≡ name_in_of (phrase_of rough.now) }
{
    match &*rough.form {
        RoughForm::Name(name) => Some(name.as_slice()),
        _ => None,
    }
}

/// The procedure literal that a clause is, where it is one.
pub fn literal_in(rough: &Rough) -> Option<Literal>
    ensures { option_map literal_of result ≡ literal_in_of (phrase_of rough.now) }
{
    match &*rough.form {
        RoughForm::Proc { params, gives, s } => {
            Some(Literal::new(params.as_slice(), gives, s, rough.line))
        }
        _ => None,
    }
}

/// A clause that may be left out.
pub fn lent(clause: &Option<Rough>) -> Option<&Rough>
    ensures { maybe_lent result ≡ maybe_in clause.now }
{
    match clause {
        Some(clause) => Some(clause),
        None => None,
    }
}

/// A clause in a box that may be left out.
pub fn lent_boxed(clause: &Option<Box<Rough>>) -> Option<&Rough>
    ensures { maybe_lent result ≡ maybe_in (option_map (λ clause. clause.value) clause.now) }
{
    match clause {
        Some(clause) => Some(clause),
        None => None,
    }
}

impl<'a> Literal<'a> {
    /// The literal of these parts.
    pub fn new(params: &'a [Group], gives: &'a Ty, s: &'a Rough, line: Line) -> Literal<'a>
        ensures { literal_of result ≡ record { params = groups_in params.now; gives = ty_view gives.now; s = phrase_of s.now; line = line } }
    {
        Literal {
            params,
            gives,
            s,
            line,
        }
    }
}
