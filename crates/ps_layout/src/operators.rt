ghost use Rattle.std.specs.Prelude.{◌≡◌, ◌+◌, ◌∷◌, [], ◌++◌, OnOk};
ghost use Rattle.ps_base.specs.TyView.{ty_view};
ghost use Rattle.ps_tree.specs.Phrase.{phrase_of, named as name_at};
ghost use Rattle.ps_tree.specs.Phrase as form;
ghost use Rattle.ps_tree.specs.PhraseLists.{phrases_in};
ghost use Rattle.ps_layout.specs.Lexemes.{nothing, blank};
ghost use Rattle.ps_layout.specs.Layout.{the_mark, operand_lexemes, right_of as right_tightness, sign_of_operator, sign_of_relation, is_word as word_of_is, bound_word as word_of_bound, flag_word as word_of_flag};
ghost use Rattle.ps_layout.specs.Weights.{weight};
ghost use Rattle.ps_layout.specs.Waiting.{waiting, Adds, AddsForm, tightness_of, gap_of, piece_lexemes, piece_weight};
ghost use Rattle.ps_layout.specs.declared.piece.Gap.{Gap as GapOf};

use crate::pending::Pending;
use crate::piece::{Behind, Gap, Piece, Spot, Tightness};
use ps_base::operator::{Operator, Relation};
use ps_base::ty::Ty;
use ps_tree::ps_scan::{mark, word};
use ps_tree::rough::{Named, Rough};
use std::alloc::AllocError;

// An operator between its operands, each of which has to bind so tight.
pub(crate) fn put_between<'a>(
    pending: &mut Pending<'a>,
    spot: Spot,
    left: Tightness,
    a: &'a Rough,
    sign: Piece<'a>,
    right: Tightness,
    b: &'a Rough,
) -> Result<(), AllocError>
    requires { piece_weight sign ≡ 1 }
    ensures { OnOk result (Adds (waiting pending.old) (operand_lexemes spot.indent (tightness_of left) (gap_of spot.gap) (phrase_of a.now) ++ (piece_lexemes sign.entry ++ operand_lexemes spot.indent (tightness_of right) blank (phrase_of b.now))) (weight (phrase_of a.now) + weight (phrase_of b.now) + 8) (waiting pending.new)) }
{
    pending.put(&[
        Piece::Operand(left, spot.indent, spot.gap, a),
        sign,
        Piece::Operand(right, spot.indent, Gap::Blank, b),
    ])
}

pub(crate) fn put_compare<'a>(
    pending: &mut Pending<'a>,
    spot: Spot,
    op: Relation,
    a: &'a Rough,
    b: &'a Rough,
) -> Result<(), AllocError>
    ensures { OnOk result (AddsForm (waiting pending.old) spot (form.Compare op (phrase_of a.now) (phrase_of b.now)) (waiting pending.new)) }
{
    let sign = Piece::Mark(Gap::Blank, relation_mark(op));
    put_between(pending, spot, Tightness::Sum, a, sign, Tightness::Sum, b)
}

pub(crate) fn put_arith<'a>(
    pending: &mut Pending<'a>,
    spot: Spot,
    op: Operator,
    a: &'a Rough,
    b: &'a Rough,
) -> Result<(), AllocError>
    ensures { OnOk result (AddsForm (waiting pending.old) spot (form.Arith op (phrase_of a.now) (phrase_of b.now)) (waiting pending.new)) }
{
    let sign = operator_sign(op);
    put_between(
        pending,
        spot,
        Tightness::of_left(op),
        a,
        sign,
        right_of(op),
        b,
    )
}

// A sign before its operand, which has to bind so tight.
pub(crate) fn put_before<'a>(
    pending: &mut Pending<'a>,
    spot: Spot,
    sign: u8,
    needed: Tightness,
    e: &'a Rough,
) -> Result<(), AllocError>
    ensures { OnOk result (Adds (waiting pending.old) (the_mark (gap_of spot.gap) sign ∷ operand_lexemes spot.indent (tightness_of needed) nothing (phrase_of e.now)) (weight (phrase_of e.now) + 8) (waiting pending.new)) }
{
    pending.put(&[
        Piece::Mark(spot.gap, sign),
        Piece::Operand(needed, spot.indent, Gap::Nothing, e),
    ])
}

pub(crate) fn put_is<'a>(
    pending: &mut Pending<'a>,
    spot: Spot,
    e: &'a Rough,
    class: &'a Named,
    negated: bool,
) -> Result<(), AllocError>
    ensures { OnOk result (AddsForm (waiting pending.old) spot (form.Is (phrase_of e.now) (name_at class.now) negated) (waiting pending.new)) }
{
    pending.put(&[
        Piece::Operand(Tightness::Sum, spot.indent, spot.gap, e),
        Piece::Word(Gap::Blank, is_word(negated)),
        Piece::Name(Gap::Blank, class.name.as_slice()),
    ])
}

pub(crate) fn put_apply<'a>(
    pending: &mut Pending<'a>,
    spot: Spot,
    f: &'a Rough,
    args: &'a [Rough],
) -> Result<(), AllocError>
    ensures { OnOk result (AddsForm (waiting pending.old) spot (form.Apply (phrase_of f.now) (phrases_in args.now)) (waiting pending.new)) }
{
    pending.put(&[
        Piece::Operand(Tightness::Application, spot.indent, spot.gap, f),
        Piece::Mark(Gap::Nothing, mark::OPEN_ROUND),
        Piece::Clauses(spot.glued(), args),
        Piece::Mark(Gap::Nothing, mark::CLOSE_ROUND),
    ])
}

pub(crate) fn put_part<'a>(
    pending: &mut Pending<'a>,
    spot: Spot,
    s: &'a Rough,
    i: &'a Rough,
    n: &'a Rough,
) -> Result<(), AllocError>
    ensures { OnOk result (AddsForm (waiting pending.old) spot (form.Part (phrase_of s.now) (phrase_of i.now) (phrase_of n.now)) (waiting pending.new)) }
{
    pending.put(&[
        Piece::Operand(Tightness::Application, spot.indent, spot.gap, s),
        Piece::Mark(Gap::Nothing, mark::OPEN_ROUND),
        Piece::Clause(spot.glued(), i),
        Piece::Mark(Gap::Nothing, mark::BAR),
        Piece::Clause(spot.glued(), n),
        Piece::Mark(Gap::Nothing, mark::CLOSE_ROUND),
    ])
}

pub(crate) fn put_bound<'a>(
    pending: &mut Pending<'a>,
    spot: Spot,
    upper: bool,
    e: &'a Rough,
) -> Result<(), AllocError>
    ensures { OnOk result (AddsForm (waiting pending.old) spot (form.Bound upper (phrase_of e.now)) (waiting pending.new)) }
{
    pending.put(&[
        Piece::Word(spot.gap, bound_word(upper)),
        Piece::Mark(Gap::Nothing, mark::OPEN_ROUND),
        Piece::Clause(spot.glued(), e),
        Piece::Mark(Gap::Nothing, mark::CLOSE_ROUND),
    ])
}

pub(crate) fn put_vector<'a>(
    pending: &mut Pending<'a>,
    spot: Spot,
    l: &'a Rough,
    u: &'a Rough,
    e: &'a Rough,
) -> Result<(), AllocError>
    ensures { OnOk result (AddsForm (waiting pending.old) spot (form.Vector (phrase_of l.now) (phrase_of u.now) (phrase_of e.now)) (waiting pending.new)) }
{
    pending.put(&[
        Piece::Word(spot.gap, word::VECTOR),
        Piece::Clause(spot.before(Behind::Other), l),
        Piece::Mark(Gap::Nothing, mark::DOUBLE_COLON),
        Piece::Clause(spot.glued(), u),
        Piece::Word(Gap::Blank, word::OF),
        Piece::Clause(spot.last(), e),
    ])
}

pub(crate) fn put_elems<'a>(
    pending: &mut Pending<'a>,
    spot: Spot,
    l: &'a Rough,
    ty: &'a Ty,
    items: &'a [Rough],
) -> Result<(), AllocError>
    ensures { OnOk result (AddsForm (waiting pending.old) spot (form.Elems (phrase_of l.now) (ty_view ty.now) (phrases_in items.now)) (waiting pending.new)) }
{
    pending.put(&[
        Piece::Mark(spot.gap, mark::AT),
        Piece::Clause(spot.glued(), l),
        Piece::Word(Gap::Blank, word::OF),
        Piece::Type(Gap::Blank, ty),
        Piece::Mark(Gap::Blank, mark::OPEN_SQUARE),
        Piece::Clauses(spot.glued(), items),
        Piece::Mark(Gap::Nothing, mark::CLOSE_SQUARE),
    ])
}

pub(crate) fn put_flag<'a>(
    pending: &mut Pending<'a>,
    spot: Spot,
    value: bool,
) -> Result<(), AllocError>
    ensures { OnOk result (AddsForm (waiting pending.old) spot (form.Flag value) (waiting pending.new)) }
{
    pending.put(&[Piece::Word(spot.gap, flag_word(value))])
}

// The right operand of an operator binds tighter than the operator.
fn right_of(op: Operator) -> Tightness
    ensures { tightness_of result ≡ right_tightness op }
{
    match op {
        Operator::Add | Operator::Sub => Tightness::Product,
        Operator::Mul | Operator::Div | Operator::Rem => Tightness::Signed,
    }
}

fn operator_sign<'a>(op: Operator) -> Piece<'a>
    ensures lexeme { piece_lexemes result ≡ sign_of_operator op ∷ [] }
    ensures weight { piece_weight result ≡ 1 }
{
    match op {
        Operator::Add => Piece::Mark(Gap::Blank, mark::PLUS),
        Operator::Sub => Piece::Mark(Gap::Blank, mark::MINUS),
        Operator::Mul => Piece::Mark(Gap::Blank, mark::TIMES),
        Operator::Div => Piece::Word(Gap::Blank, word::DIV),
        Operator::Rem => Piece::Word(Gap::Blank, word::REM),
    }
}

fn relation_mark(op: Relation) -> u8
    ensures { piece_lexemes (Piece.Mark Gap.Blank result) ≡ sign_of_relation op ∷ [] }
{
    match op {
        Relation::Equal => mark::EQUALS,
        Relation::NotEqual => mark::NOT_EQUALS,
        Relation::Less => mark::LESS,
        Relation::LessEqual => mark::LESS_OR_EQUAL,
        Relation::Greater => mark::GREATER,
        Relation::GreaterEqual => mark::GREATER_OR_EQUAL,
    }
}

fn is_word(negated: bool) -> u8
    ensures { piece_lexemes (Piece.Word Gap.Blank result) ≡ word_of_is negated ∷ [] }
{
    if negated { word::ISNT } else { word::IS }
}

fn bound_word(upper: bool) -> u8
    ensures { (gap : GapOf) → piece_lexemes (Piece.Word gap result) ≡ word_of_bound (gap_of gap) upper ∷ [] }
{
    if upper { word::UPB } else { word::LWB }
}

fn flag_word(value: bool) -> u8
    ensures { (gap : GapOf) → piece_lexemes (Piece.Word gap result) ≡ word_of_flag (gap_of gap) value ∷ [] }
{
    if value { word::TRUE } else { word::FALSE }
}
