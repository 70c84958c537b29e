ghost use Rattle.ps_checked.specs.ps_scope.Content.{names_of};
ghost use Rattle.ps_checked.specs.ps_declared.inside.Answers.{IsClause};
ghost use Rattle.ps_steps.specs.inside.Steps.{check_leaf};

use ps_base::line::Line;
use ps_base::ty::Ty;
use ps_checked::ps_declared::classes::structure;
use ps_checked::ps_declared::clause::Clause;
use ps_checked::ps_declared::fault::CheckFault;
use ps_checked::ps_declared::names::{text, used};
use ps_checked::ps_scope::scope::Scope;
use ps_program::form::TreeForm;
use ps_tree::rough::{Group, Named};
use std::alloc::Global;

/// A clause without parts.
#[derive(Clone, Copy)]
pub enum Leaf<'a> {
    Nil,
    Int(i32),
    Flag(bool),
    Text(&'a [u8]),
    /// A name by itself, on this line.
    Name(Line, &'a [u8]),
    Abort(Line),
    /// The declaration of a class, on this line, with its name and its fields.
    Structure(Line, &'a Named, &'a [Group]),
}

impl<'a> Leaf<'a> {
    /// The typed clause. Faults: `Unknown` and `NotApplicable` of a name, `Twice` and `Limit` of a class, and `Memory`.
    pub fn clause(self, alloc: Global, scope: &mut Scope) -> Result<Clause, CheckFault>
        ensures { IsClause (check_leaf self.entry (names_of scope.old)) result scope.new }
    {
        match self {
            Leaf::Nil => Clause::new(alloc, TreeForm::Nil, Ty::Pntr),
            Leaf::Int(value) => Clause::new(alloc, TreeForm::Int(value), Ty::Int),
            Leaf::Flag(value) => Clause::new(alloc, TreeForm::Flag(value), Ty::Bool),
            Leaf::Text(bytes) => text(alloc, bytes),
            Leaf::Name(line, name) => used(alloc, scope, line, name),
            Leaf::Abort(line) => Clause::new(alloc, TreeForm::Abort(line), Ty::Void),
            Leaf::Structure(line, name, fields) => structure(alloc, scope, line, name, fields),
        }
    }
}
