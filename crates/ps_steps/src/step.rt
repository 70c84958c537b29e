ghost use Rattle.std.specs.Prelude.{◌≡◌, ◌+◌, ◌≤◌};
ghost use Rattle.ps_tree.specs.Phrase.{phrase_of};
ghost use Rattle.ps_checked.specs.ps_scope.Content.{names_of};
ghost use Rattle.ps_checked.specs.ps_typing.Checking.{check as check_of};
ghost use Rattle.ps_checked.specs.inside.Weights.{weight};
ghost use Rattle.ps_steps.specs.inside.Steps.{check_step, weight_step};

use crate::leaf::Leaf;
use ps_base::line::Line;
use ps_base::ty::Ty;
use ps_checked::assigning::can_be_assigned;
use ps_checked::double::Double;
use ps_checked::link::{Joint, Link};
use ps_checked::ps_declared::looks::{Literal, lent_boxed, literal_in, name_in};
use ps_checked::ps_scope::scope::Scope;
use ps_checked::single::Single;
use ps_checked::triple::Triple;
use ps_tree::rough::{Named, Rough, RoughArm, RoughForm, RoughItem, RoughRange};

/// What is to be done for a clause: its form, and the parts that are left to be checked, in their order.
#[derive(Drop)]
pub enum Step<'a> {
    Leaf(Leaf<'a>),
    Single(Single<'a>, &'a Rough),
    Double(Double, &'a Rough, &'a Rough),
    Triple(Triple, &'a Rough, &'a Rough, &'a Rough),
    /// The last link of a chain, after what stands before it.
    Link(Link<'a>, &'a Rough),
    Literal(Literal<'a>),
    /// A name that is declared with a literal, as a variable or not.
    Named(&'a Named, bool, Literal<'a>),
    /// A loop over a range, on this line, with the name of its control and what it does.
    Counted(Line, &'a Named, &'a RoughRange, &'a Rough),
    /// A choice by a value, with its arms and the clause where none is for the value.
    Case(&'a Rough, &'a [RoughArm], &'a Rough),
    Write(&'a [RoughItem]),
    /// A vector, on this line, from this bound on, with these elements of the type.
    Elements(Line, &'a Rough, &'a Ty, &'a [Rough]),
    /// What is applied by its name, on this line, with the line of the name and the arguments.
    Applied(Line, Line, &'a [u8], &'a [Rough]),
    /// The items of a sequence, on this line.
    Sequence(Line, &'a [Rough]),
}

/// What is to be done for a clause where these names are in scope, which say whether what is assigned to may be.
pub fn step_of<'a>(scope: &Scope, rough: &'a Rough) -> Step<'a>
    ensures step { check_step result (names_of scope.now) ≡ check_of (names_of scope.now) (phrase_of rough.now) }
    ensures lighter { weight_step result + 1 ≤ weight (phrase_of rough.now) }
{
    let line = rough.line;
    match &*rough.form {
        RoughForm::Nil => Step::Leaf(Leaf::Nil),
        RoughForm::Int(value) => Step::Leaf(Leaf::Int(*value)),
        RoughForm::Flag(value) => Step::Leaf(Leaf::Flag(*value)),
        RoughForm::Text(bytes) => Step::Leaf(Leaf::Text(bytes.as_slice())),
        RoughForm::Name(name) => Step::Leaf(Leaf::Name(line, name.as_slice())),
        RoughForm::Abort => Step::Leaf(Leaf::Abort(line)),
        RoughForm::Structure { name, fields } => {
            Step::Leaf(Leaf::Structure(line, name, fields.as_slice()))
        }
        RoughForm::Let { name, variable, e } => match literal_in(e) {
            Some(literal) => Step::Named(name, *variable, literal),
            None => {
                let variable = *variable;
                Step::Single(Single::Initial { name, variable }, e)
            }
        },
        RoughForm::Not { e } => Step::Single(Single::Not, e),
        RoughForm::Plus { e } => Step::Single(Single::Plus, e),
        RoughForm::Neg { e } => Step::Single(Single::Neg(line), e),
        RoughForm::Bound { upper, e } => Step::Single(Single::Bound { upper: *upper }, e),
        RoughForm::Is { e, class, negated } => {
            let negated = *negated;
            Step::Single(Single::Is { class, negated }, e)
        }
        RoughForm::IfDo { c, a } => Step::Double(Double::IfDo, c, a),
        RoughForm::While { c, a } => Step::Double(Double::While, c, a),
        RoughForm::Compare { op, a, b } => Step::Double(Double::Compare(*op), a, b),
        RoughForm::Assign { x, e } => {
            let assign = Double::Assign {
                line,
                e_line: e.line,
                variable: can_be_assigned(scope, x),
            };
            Step::Double(assign, x, e)
        }
        RoughForm::Repeat { a, c, b } => match lent_boxed(b) {
            Some(b) => Step::Triple(Triple::Repeat, a, c, b),
            None => Step::Double(Double::Repeat, a, c),
        },
        RoughForm::IfElse { c, a, b } => Step::Triple(Triple::IfElse, c, a, b),
        RoughForm::Vector { l, u, e } => Step::Triple(Triple::Fill(line), l, u, e),
        RoughForm::Or { a, b } => Step::Link(Link::new(Joint::Or, a, b), a),
        RoughForm::And { a, b } => Step::Link(Link::new(Joint::And, a, b), a),
        RoughForm::Join { a, b } => Step::Link(Link::new(Joint::Join(line), a, b), a),
        RoughForm::Arith { op, a, b } => Step::Link(Link::new(Joint::Arith(*op, line), a, b), a),
        RoughForm::Part { s, i, n } => Step::Link(Link::part(line, s, i, n), s),
        RoughForm::Apply { f, args } => match name_in(f) {
            Some(name) => Step::Applied(line, f.line, name, args.as_slice()),
            None => Step::Link(Link::apply(line, args.as_slice()), f),
        },
        RoughForm::Proc { params, gives, s } => {
            Step::Literal(Literal::new(params.as_slice(), gives, s, line))
        }
        RoughForm::For { name, range, s } => Step::Counted(line, name, range, s),
        RoughForm::Case { e, arms, d } => Step::Case(e, arms.as_slice(), d),
        RoughForm::Write { items } => Step::Write(items.as_slice()),
        RoughForm::Elems { l, ty, items } => Step::Elements(line, l, ty, items.as_slice()),
        RoughForm::Sequence { items } => Step::Sequence(line, items.as_slice()),
    }
}
