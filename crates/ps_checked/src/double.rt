ghost use Rattle.std.specs.Prelude.{◌≡◌, MatchResult};
ghost use Rattle.ps_base.specs.TyView.{ty_view};
ghost use Rattle.ps_program.specs.NodeView.{node_of};
ghost use Rattle.ps_declared.specs.ps_scope.Content.{Content, names_of};
ghost use Rattle.ps_base.specs.TyView as types;
ghost use Rattle.ps_program.specs.Node as node;
ghost use Rattle.ps_declared.specs.inside.Answers.{IsClause, IsMade, IsMemory};
ghost use Rattle.ps_checked.specs.inside.Parts.{want_of, double_first, double_second, double_made};

use crate::assigning::{assigned, assignment};
use crate::fits::Test;
use crate::vectors::{caller, filled};
use crate::wanted::Wanted;
use ps_base::line::Line;
use ps_base::operator::Relation;
use ps_base::ty::Ty;
use ps_declared::clause::Clause;
use ps_declared::fault::CheckFault;
use ps_program::form::{Tree, TreeForm};
use std::alloc::Global;

/// A form of which two parts are left to be checked, one after the other.
pub enum Double {
    IfDo,
    While,
    /// A loop with its test after what is done, and nothing after the test.
    Repeat,
    /// The test of such a loop, and what is done after it.
    RepeatDo {
        a: Tree,
    },
    /// The two clauses after the test.
    IfElse {
        c: Tree,
    },
    Compare(Relation),
    /// What is assigned to, where names allow it, and what is assigned, on a line of its own.
    Assign {
        line: Line,
        e_line: Line,
        variable: bool,
    },
    /// The upper bound of a vector, and its elements.
    Fill {
        l: Tree,
        line: Line,
    },
    /// Where a part of a string begins, and how long it is.
    Part {
        s: Tree,
        line: Line,
    },
    /// A table, by strings or by ints, and the procedure that is called with each of its keys.
    Scan {
        text: bool,
        line: Line,
    },
}

impl Drop for Double {
    fn drop(self) {
        match self {
            Double::IfDo => (),
            Double::While => (),
            Double::Repeat => (),
            Double::RepeatDo { a: _ } => (),
            Double::IfElse { c: _ } => (),
            Double::Compare(_) => (),
            Double::Assign {
                line: _,
                e_line: _,
                variable: _,
            } => (),
            Double::Fill { l: _, line: _ } => (),
            Double::Part { s: _, line: _ } => (),
            Double::Scan { text: _, line: _ } => (),
        }
    }
}

impl Double {
    /// The type that the first part is to have.
    pub fn first(&self) -> Wanted
        ensures { want_of result ≡ double_first self.now }
    {
        match self {
            Double::IfDo => Wanted::This(Ty::Bool),
            Double::While => Wanted::This(Ty::Bool),
            Double::Repeat => Wanted::This(Ty::Void),
            Double::RepeatDo { .. } => Wanted::This(Ty::Bool),
            Double::IfElse { .. } => Wanted::Any,
            Double::Compare(op) => Wanted::Passing(Test::Compared(*op)),
            Double::Assign { .. } => Wanted::Any,
            Double::Fill { .. } => Wanted::This(Ty::Int),
            Double::Part { .. } => Wanted::This(Ty::Int),
            Double::Scan { .. } => Wanted::This(Ty::Pntr),
        }
    }

    /// The type that the second part is to have, where the first has this one. The only fault is `Memory`.
    pub fn second(&self, alloc: Global, first: &Ty) -> Result<Wanted, CheckFault>
        ensures { MatchResult result (λ wanted. want_of wanted ≡ double_second self.now (ty_view first.now)) IsMemory }
    {
        match self {
            Double::IfDo => Ok(Wanted::This(Ty::Void)),
            Double::While => Ok(Wanted::This(Ty::Void)),
            Double::Repeat => Ok(Wanted::This(Ty::Bool)),
            Double::RepeatDo { .. } => Ok(Wanted::This(Ty::Void)),
            Double::IfElse { .. } => Ok(Wanted::This(first.copy()?)),
            Double::Compare(_) => Ok(Wanted::This(first.copy()?)),
            Double::Assign { .. } => Ok(Wanted::Any),
            Double::Fill { .. } => Ok(Wanted::Passing(Test::NotVoid)),
            Double::Part { .. } => Ok(Wanted::This(Ty::Int)),
            Double::Scan { text, .. } => Ok(Wanted::This(caller(alloc, *text)?)),
        }
    }

    /// The clause of the form with its parts, which have the wanted types. Faults: `NotAssignable` and `Mismatch` of an assignment, and
    /// `Memory`.
    pub fn made(self, alloc: Global, a: Clause, b: Clause) -> Result<Clause, CheckFault>
        ensures { (scope : Content) → IsClause (double_made self (node_of a.tree) (ty_view a.ty) (node_of b.tree) (ty_view b.ty) (names_of scope)) result scope }
    {
        let Clause { tree: a, ty } = a;
        let Clause { tree: b, ty: found } = b;
        match self {
            Double::IfDo => Clause::new(alloc, TreeForm::IfDo { c: a, a: b }, Ty::Void),
            Double::While => Clause::new(alloc, TreeForm::While { c: a, a: b }, Ty::Void),
            Double::Repeat => repeated(alloc, a, b),
            Double::RepeatDo { a: before } => {
                let form = TreeForm::Repeat { a: before, c: a, b };
                Clause::new(alloc, form, Ty::Void)
            }
            Double::IfElse { c } => Clause::new(alloc, TreeForm::IfElse { c, a, b }, ty),
            Double::Compare(op) => {
                Clause::new(alloc, TreeForm::Compare { op, ty, a, b }, Ty::Bool)
            }
            Double::Assign {
                line,
                e_line,
                variable,
            } => {
                let assignment = assignment(alloc, a, b)?;
                assigned(line, e_line, variable, assignment, ty, found)
            }
            Double::Fill { l, line } => filled(alloc, line, l, a, b, found),
            Double::Part { s, line } => {
                let form = TreeForm::Part {
                    a: s,
                    i: a,
                    n: b,
                    line,
                };
                Clause::new(alloc, form, Ty::Str)
            }
            Double::Scan { text, line } => scanned(alloc, text, line, a, b),
        }
    }
}

// A loop with nothing after its test.
fn repeated(alloc: Global, a: Tree, c: Tree) -> Result<Clause, CheckFault>
    ensures { IsMade (node.Repeat (node_of a) (node_of c) node.Empty) types.Void result }
{
    let b = Tree::new(alloc, TreeForm::Empty)?;
    Clause::new(alloc, TreeForm::Repeat { a, c, b }, Ty::Void)
}

// The scan of a table; its locals are known later.
fn scanned(alloc: Global, text: bool, line: Line, a: Tree, f: Tree) -> Result<Clause, CheckFault>
    ensures { IsMade (node.Scan text (node_of a) (node_of f) 0 0 line) types.Int result }
{
    let form = TreeForm::Scan {
        text,
        a,
        f,
        q: 0,
        s: 0,
        line,
    };
    Clause::new(alloc, form, Ty::Int)
}
