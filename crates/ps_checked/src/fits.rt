ghost use Rattle.std.specs.Prelude.{◌≡◌, not, MatchResult};
ghost use Rattle.ps_base.specs.TyView.{ty_view};
ghost use Rattle.ps_program.specs.Node.{Node};
ghost use Rattle.ps_program.specs.NodeView.{node_of};
ghost use Rattle.ps_declared.specs.ps_scope.Content.{Content, names_of};
ghost use Rattle.ps_declared.specs.ps_typing.Checking.{Gives, Outcome, passes, is_equated, is_ordered, is_comparable, is_writable, is_vector, isnt_void, is_present};
ghost use Rattle.ps_declared.specs.inside.Answers.{IsClause, IsFault, IsMemory};
ghost use Rattle.ps_checked.specs.inside.Lists.{behind_void};
ghost use Rattle.ps_checked.specs.inside.Tests.{test_of, wanted_by};

use ps_base::line::Line;
use ps_base::operator::Relation;
use ps_base::ty::{self, Ty};
use ps_declared::clause::Clause;
use ps_declared::fault::CheckFault;
use std::alloc::Global;

/// What a clause's type is to be, where several types will do.
#[derive(Clone, Copy)]
pub enum Test {
    NotVoid,
    /// One that `=` and `case` compare.
    Equated,
    /// One that the relation compares.
    Compared(Relation),
    /// One that `write` writes.
    Written,
    Vector,
}

impl Test {
    /// Whether a type will do.
    fn fits(self, ty: &Ty) -> bool
        ensures { result ≡ test_of self (ty_view ty.now) }
    {
        match self {
            Test::NotVoid => !is_void(ty),
            Test::Equated => is_equated(ty),
            Test::Compared(op) => is_comparable(op, ty),
            Test::Written => is_writable(ty),
            Test::Vector => is_vector(ty),
        }
    }

    /// The first of the types that will do.
    fn wanted(self, alloc: Global) -> Result<Ty, CheckFault>
        ensures { MatchResult result (λ ty. ty_view ty ≡ wanted_by self) IsMemory }
    {
        match self {
            Test::NotVoid => Ok(Ty::Bool),
            Test::Equated => Ok(Ty::Int),
            Test::Compared(_) => Ok(Ty::Int),
            Test::Written => Ok(Ty::Int),
            Test::Vector => vector_of_ints(alloc),
        }
    }

    /// The clause on this line, where its type will do.
    pub fn passed(self, alloc: Global, clause: Clause, line: Line) -> Result<Clause, CheckFault>
        ensures { (scope : Content) → IsClause (passes (test_of self) (wanted_by self) line (Gives (node_of clause.tree) (ty_view clause.ty) (names_of scope))) result scope }
    {
        if self.fits(&clause.ty) {
            return Ok(clause);
        }
        let wanted = self.wanted(alloc)?;
        let Clause { tree: _, ty: found } = clause;
        Err(CheckFault::Mismatch {
            line,
            found,
            wanted,
        })
    }
}

fn vector_of_ints(alloc: Global) -> Result<Ty, CheckFault>
    ensures { MatchResult result (λ ty. ty_view ty ≡ wanted_by Test.Vector) IsMemory }
{
    Ok(ty::vector_of(alloc, Ty::Int)?)
}

// What `=`, `~=` and `case` compare: ints, bools, strings, pointers and vectors.
fn is_equated(ty: &Ty) -> bool
    ensures { result ≡ is_equated (ty_view ty.now) }
{
    match ty {
        Ty::Int => true,
        Ty::Bool => true,
        Ty::Str => true,
        Ty::Pntr => true,
        Ty::Void => false,
        Ty::Vector(_) => true,
        Ty::Proc(_) => false,
    }
}

// Whether a type is that of a clause without a value.
fn is_void(ty: &Ty) -> bool
    ensures { not result ≡ isnt_void (ty_view ty.now) }
{
    match ty {
        Ty::Int => false,
        Ty::Bool => false,
        Ty::Str => false,
        Ty::Pntr => false,
        Ty::Void => true,
        Ty::Vector(_) => false,
        Ty::Proc(_) => false,
    }
}

/// What another clause follows, on this line, has to be void; else `Mismatch`.
pub fn void_before(before: Ty, line: Line) -> Result<(), CheckFault>
    ensures { (next : Outcome Node) → MatchResult result (λ _. behind_void line (ty_view before) next ≡ next) (IsFault (behind_void line (ty_view before) next)) }
{
    if is_void(&before) {
        return Ok(());
    }
    Err(CheckFault::Mismatch {
        line,
        found: before,
        wanted: Ty::Void,
    })
}

/// Whether a type is int.
pub fn is_int(ty: &Ty) -> bool
    ensures { result ≡ is_present (ty_view ty.now) }
{
    match ty {
        Ty::Int => true,
        Ty::Bool => false,
        Ty::Str => false,
        Ty::Pntr => false,
        Ty::Void => false,
        Ty::Vector(_) => false,
        Ty::Proc(_) => false,
    }
}

fn is_vector(ty: &Ty) -> bool
    ensures { result ≡ is_vector (ty_view ty.now) }
{
    match ty {
        Ty::Int => false,
        Ty::Bool => false,
        Ty::Str => false,
        Ty::Pntr => false,
        Ty::Void => false,
        Ty::Vector(_) => true,
        Ty::Proc(_) => false,
    }
}

// What `write` writes: ints, bools and strings.
fn is_writable(ty: &Ty) -> bool
    ensures { result ≡ is_writable (ty_view ty.now) }
{
    match ty {
        Ty::Int => true,
        Ty::Bool => true,
        Ty::Str => true,
        Ty::Pntr => false,
        Ty::Void => false,
        Ty::Vector(_) => false,
        Ty::Proc(_) => false,
    }
}

// What the other relations compare: ints and strings.
fn is_ordered(ty: &Ty) -> bool
    ensures { result ≡ is_ordered (ty_view ty.now) }
{
    match ty {
        Ty::Int => true,
        Ty::Bool => false,
        Ty::Str => true,
        Ty::Pntr => false,
        Ty::Void => false,
        Ty::Vector(_) => false,
        Ty::Proc(_) => false,
    }
}

fn is_comparable(op: Relation, ty: &Ty) -> bool
    ensures { result ≡ is_comparable op (ty_view ty.now) }
{
    match op {
        Relation::Equal | Relation::NotEqual => is_equated(ty),
        Relation::Less | Relation::LessEqual | Relation::Greater | Relation::GreaterEqual => {
            is_ordered(ty)
        }
    }
}
