ghost use Rattle.std.specs.Prelude.{OnOk};
ghost use Rattle.ps_tree.specs.Phrase.{form_of};
ghost use Rattle.ps_layout.specs.Waiting.{waiting, AddsForm};

use crate::blocks::put_block;
use crate::declarations::{put_let, put_proc, put_structure};
use crate::operators::{
    put_apply, put_arith, put_before, put_between, put_bound, put_compare, put_elems, put_flag,
    put_is, put_part, put_vector,
};
use crate::pending::Pending;
use crate::piece::{Gap, Piece, Spot, Tightness};
use crate::statements::{
    put_assign, put_case, put_conditional, put_for, put_if_else, put_repeat, put_write,
};
use ps_tree::ps_scan::{mark, word};
use ps_tree::rough::RoughForm;
use std::alloc::AllocError;

/// Puts the pieces of a form, which stands at this spot without brackets round it.
pub fn put_form<'a>(
    pending: &mut Pending<'a>,
    spot: Spot,
    form: &'a RoughForm,
) -> Result<(), AllocError>
    ensures { OnOk result (AddsForm (waiting pending.old) spot (form_of form.now) (waiting pending.new)) }
{
    match form {
        RoughForm::Sequence { items } => put_block(pending, spot, items.as_slice()),
        RoughForm::Let { name, variable, e } => put_let(pending, spot, name, *variable, e),
        RoughForm::Structure { name, fields } => {
            put_structure(pending, spot, name, fields.as_slice())
        }
        RoughForm::IfDo { c, a } => put_conditional(pending, spot, word::IF, c, a),
        RoughForm::IfElse { c, a, b } => put_if_else(pending, spot, c, a, b),
        RoughForm::While { c, a } => put_conditional(pending, spot, word::WHILE, c, a),
        RoughForm::Repeat { a, c, b } => put_repeat(pending, spot, a, c, b),
        RoughForm::For { name, range, s } => put_for(pending, spot, name, range, s),
        RoughForm::Case { e, arms, d } => put_case(pending, spot, e, arms.as_slice(), d),
        RoughForm::Write { items } => put_write(pending, spot, items.as_slice()),
        RoughForm::Abort => pending.put(&[Piece::Word(spot.gap, word::ABORT)]),
        RoughForm::Proc { params, gives, s } => {
            put_proc(pending, spot, params.as_slice(), gives, s)
        }
        RoughForm::Vector { l, u, e } => put_vector(pending, spot, l, u, e),
        RoughForm::Assign { x, e } => put_assign(pending, spot, x, e),
        RoughForm::Or { a, b } => {
            let sign = Piece::Word(Gap::Blank, word::OR);
            put_between(
                pending,
                spot,
                Tightness::Disjunction,
                a,
                sign,
                Tightness::Conjunction,
                b,
            )
        }
        RoughForm::And { a, b } => {
            let sign = Piece::Word(Gap::Blank, word::AND);
            put_between(
                pending,
                spot,
                Tightness::Conjunction,
                a,
                sign,
                Tightness::Negation,
                b,
            )
        }
        RoughForm::Not { e } => put_before(pending, spot, mark::TILDE, Tightness::Comparison, e),
        RoughForm::Compare { op, a, b } => put_compare(pending, spot, *op, a, b),
        RoughForm::Is { e, class, negated } => put_is(pending, spot, e, class, *negated),
        RoughForm::Join { a, b } => {
            let sign = Piece::Mark(Gap::Blank, mark::CONCATENATE);
            put_between(
                pending,
                spot,
                Tightness::Sum,
                a,
                sign,
                Tightness::Product,
                b,
            )
        }
        RoughForm::Arith { op, a, b } => put_arith(pending, spot, *op, a, b),
        RoughForm::Plus { e } => put_before(pending, spot, mark::PLUS, Tightness::Application, e),
        RoughForm::Neg { e } => put_before(pending, spot, mark::MINUS, Tightness::Application, e),
        RoughForm::Apply { f, args } => put_apply(pending, spot, f, args.as_slice()),
        RoughForm::Part { s, i, n } => put_part(pending, spot, s, i, n),
        RoughForm::Name(name) => pending.put(&[Piece::Name(spot.gap, name.as_slice())]),
        RoughForm::Int(value) => pending.put(&[Piece::Int(spot.gap, value.unsigned_abs())]),
        RoughForm::Text(bytes) => pending.put(&[Piece::Text(spot.gap, bytes.as_slice())]),
        RoughForm::Flag(value) => put_flag(pending, spot, *value),
        RoughForm::Nil => pending.put(&[Piece::Word(spot.gap, word::NIL)]),
        RoughForm::Bound { upper, e } => put_bound(pending, spot, *upper, e),
        RoughForm::Elems { l, ty, items } => put_elems(pending, spot, l, ty, items.as_slice()),
    }
}
