ghost use Rattle.std.specs.Prelude.{◌≡◌};
ghost use Rattle.ps_base.specs.TyView.{ty_view};
ghost use Rattle.ps_program.specs.NodeView.{node_of};
ghost use Rattle.ps_declared.specs.ps_scope.Content.{names_of};
ghost use Rattle.ps_declared.specs.inside.Answers.{IsClause};
ghost use Rattle.ps_checked.specs.inside.Parts.{want_of, single_want, single_made};

use crate::fits::Test;
use crate::link::Joint;
use crate::vectors::element_at;
use crate::wanted::Wanted;
use ps_base::line::Line;
use ps_base::ty::Ty;
use ps_declared::classes::class_tested;
use ps_declared::clause::Clause;
use ps_declared::fault::CheckFault;
use ps_declared::names::introduced;
use ps_declared::ps_scope::scope::Scope;
use ps_program::form::{Tree, TreeForm};
use ps_tree::rough::Named;
use std::alloc::Global;

/// A form of which one part is left to be checked.
pub enum Single<'a> {
    Not,
    Plus,
    Neg(Line),
    Bound { upper: bool },
    /// Whether an object is of the class, or isn't.
    Is { class: &'a Named, negated: bool },
    /// The initial value of a name, which is in scope after it.
    Initial { name: &'a Named, variable: bool },
    /// The right operand.
    Joined { joint: Joint, left: Tree },
    /// The subscript of a vector whose elements have this type.
    Element { v: Tree, ty: Ty, line: Line },
}

impl<'a> Drop for Single<'a> {
    fn drop(self) {
        match self {
            Single::Not => (),
            Single::Plus => (),
            Single::Neg(_) => (),
            Single::Bound { upper: _ } => (),
            Single::Is {
                class: _,
                negated: _,
            } => (),
            Single::Initial {
                name: _,
                variable: _,
            } => (),
            Single::Joined { joint: _, left: _ } => (),
            Single::Element {
                v: _,
                ty: _,
                line: _,
            } => (),
        }
    }
}

impl<'a> Single<'a> {
    /// The type that the part is to have.
    pub fn wanted(&self) -> Wanted
        ensures { want_of result ≡ single_want self.now }
    {
        match self {
            Single::Not => Wanted::This(Ty::Bool),
            Single::Plus => Wanted::This(Ty::Int),
            Single::Neg(_) => Wanted::This(Ty::Int),
            Single::Bound { .. } => Wanted::Passing(Test::Vector),
            Single::Is { .. } => Wanted::This(Ty::Pntr),
            Single::Initial { .. } => Wanted::Passing(Test::NotVoid),
            Single::Joined { joint, .. } => Wanted::This(joint.ty()),
            Single::Element { .. } => Wanted::This(Ty::Int),
        }
    }

    /// The clause of the form with its part, which has the wanted type. Faults: `Unknown` where no class of the name is in scope,
    /// `Twice` where the name is declared already, and `Memory`.
    pub fn made(self, alloc: Global, scope: &mut Scope, part: Clause) -> Result<Clause, CheckFault>
        ensures { IsClause (single_made self.entry (node_of part.tree) (ty_view part.ty) (names_of scope.old)) result scope.new }
    {
        let Clause { tree: e, ty: own } = part;
        match self {
            Single::Not => Clause::new(alloc, TreeForm::Not(e), Ty::Bool),
            Single::Plus => Clause::new(alloc, TreeForm::Plus(e), Ty::Int),
            Single::Neg(line) => Clause::new(alloc, TreeForm::Neg { e, line }, Ty::Int),
            Single::Bound { upper } => {
                Clause::new(alloc, TreeForm::Bound { v: e, upper }, Ty::Int)
            }
            Single::Is { class, negated } => class_tested(alloc, scope, e, class, negated),
            Single::Initial { name, variable } => introduced(alloc, scope, name, variable, e, own),
            Single::Joined { joint, left } => joint.clause(alloc, left, e),
            Single::Element { v, ty, line } => element_at(alloc, line, v, e, ty),
        }
    }
}
