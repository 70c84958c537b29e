ghost use Rattle.std.specs.Prelude.{◌≡◌};
ghost use Rattle.ps_program.specs.NodeView.{node_of};
ghost use Rattle.ps_program.specs.inside.PartsView.{ArePartsOf};

use crate::body::Body;
use crate::form::{Arm, Tree, TreeForm};

/// The parts of a clause, in the order of the text.
#[derive(Clone, Copy)]
pub enum Parts<'a> {
    /// The first may have a first part itself, and so on as far as the text is long, so what goes over the parts goes to it
    /// by a loop; the further ones stand no deeper than clauses nest.
    Clauses {
        first: Option<&'a Tree>,
        further: Further<'a>,
    },
    /// The body of a literal.
    Literal(&'a Body),
}

/// The parts of a clause after its first.
#[derive(Clone, Copy)]
pub enum Further<'a> {
    Nothing,
    /// Operands, as the first is.
    One(&'a Tree),
    Two(&'a Tree, &'a Tree),
    Three(&'a Tree, &'a Tree, &'a Tree),
    /// Branches, as the first is.
    OneBranch(&'a Tree),
    TwoBranches(&'a Tree, &'a Tree),
    /// The items of a sequence.
    Branches(&'a [Tree]),
    /// Operands, as many as there are.
    Operands(&'a [Tree]),
    /// The arms of a `case`, and what is done where none is for the value.
    Arms(&'a [Arm], &'a Tree),
}

fn all(further: Further) -> Parts
    ensures { result ≡ Parts.Clauses None further.entry }
{
    Parts::Clauses {
        first: None,
        further,
    }
}

fn first<'a>(first: &'a Tree, further: Further<'a>) -> Parts<'a>
    ensures { result ≡ Parts.Clauses (Some first.entry) further.entry }
{
    Parts::Clauses {
        first: Some(first),
        further,
    }
}

impl Tree {
    /// The parts of the clause.
    pub fn parts(&self) -> Parts
        ensures { ArePartsOf (node_of self.now) result }
    {
        match &*self.form {
            TreeForm::Int(_)
            | TreeForm::Flag(_)
            | TreeForm::Text(_)
            | TreeForm::Nil
            | TreeForm::Name { .. }
            | TreeForm::Class
            | TreeForm::Empty
            | TreeForm::Abort(_) => all(Further::Nothing),
            TreeForm::SetName { e, .. } => first(e, Further::Nothing),
            TreeForm::Let { e, .. } => first(e, Further::Nothing),
            TreeForm::Not(e) => first(e, Further::Nothing),
            TreeForm::Neg { e, .. } => first(e, Further::Nothing),
            TreeForm::Plus(e) => first(e, Further::Nothing),
            TreeForm::Is { e, .. } => first(e, Further::Nothing),
            TreeForm::Field { e, .. } => first(e, Further::Nothing),
            TreeForm::Bound { v, .. } => first(v, Further::Nothing),
            TreeForm::While { c, a } => first(c, Further::One(a)),
            TreeForm::And { a, b } => first(a, Further::One(b)),
            TreeForm::Or { a, b } => first(a, Further::One(b)),
            TreeForm::Arith { a, b, .. } => first(a, Further::One(b)),
            TreeForm::Compare { a, b, .. } => first(a, Further::One(b)),
            TreeForm::Join { a, b, .. } => first(a, Further::One(b)),
            TreeForm::SetField { p, e, .. } => first(p, Further::One(e)),
            TreeForm::Element { v, i, .. } => first(v, Further::One(i)),
            TreeForm::Scan { a, f, .. } => first(a, Further::One(f)),
            TreeForm::Write { e, w, .. } => first(e, Further::One(w)),
            TreeForm::Repeat { a, c, b } => first(a, Further::Two(c, b)),
            TreeForm::Part { a, i, n, .. } => first(a, Further::Two(i, n)),
            TreeForm::Fill { l, u, e, .. } => first(l, Further::Two(u, e)),
            TreeForm::SetElement { v, i, e, .. } => first(v, Further::Two(i, e)),
            TreeForm::For(it) => first(&it.a, Further::Three(&it.b, &it.c, &it.s)),
            TreeForm::IfDo { c, a } => first(c, Further::OneBranch(a)),
            TreeForm::IfElse { c, a, b } => first(c, Further::TwoBranches(a, b)),
            TreeForm::Block { items, .. } => all(Further::Branches(items.as_slice())),
            TreeForm::Make { args, .. } => all(Further::Operands(args.as_slice())),
            TreeForm::Lib { args, .. } => all(Further::Operands(args.as_slice())),
            TreeForm::Elems { l, items, .. } => first(l, Further::Operands(items.as_slice())),
            TreeForm::Call { f, args, .. } => first(f, Further::Operands(args.as_slice())),
            TreeForm::Case { e, arms, d, .. } => first(e, Further::Arms(arms.as_slice(), d)),
            TreeForm::Proc(body) => Parts::Literal(body),
        }
    }
}
