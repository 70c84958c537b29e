ghost use Rattle.std.specs.Prelude.{◌≡◌, ◌+◌, true, OnOk};
ghost use Rattle.ps_tree.specs.Phrase.{form_of, phrase_of};
ghost use Rattle.ps_tree.specs.PhraseLists.{items_in};
ghost use Rattle.ps_type_pieces.specs.ps_layout.Lexemes.{nothing};
ghost use Rattle.ps_type_pieces.specs.ps_layout.Layout.{other, before_do, before_comma, before_colon, clause_lexemes, operand_lexemes, form_lexemes, in_brackets, number_of, tightness as tightness_in, is_looser, is_taken, ends_open};
ghost use Rattle.ps_type_pieces.specs.ps_layout.Weights.{weight, weight_form};
ghost use Rattle.ps_type_pieces.specs.ps_layout.Waiting.{waiting, gap_of, behind_of, tightness_of, Adds};

use ps_tree::ps_scan::mark;
use ps_tree::rough::{Rough, RoughForm, RoughItem};
use ps_type_pieces::ps_layout::pending::Pending;
use ps_type_pieces::ps_layout::piece::{Behind, Gap, Piece, Spot, Tightness};
use std::alloc::AllocError;

/// A clause; what would take what stands after it stands in brackets.
pub fn put_clause<'a>(
    pending: &mut Pending<'a>,
    spot: Spot,
    clause: &'a Rough,
) -> Result<(), AllocError>
    ensures { OnOk result (Adds (waiting pending.old) (clause_lexemes spot.indent (behind_of spot.behind) (gap_of spot.gap) (phrase_of clause.now)) (weight (phrase_of clause.now)) (waiting pending.new)) }
{
    if is_taken(spot.behind, &clause.form) {
        put_bracketed(pending, spot, &clause.form)
    } else {
        pending.put(&[Piece::Form(spot, &clause.form)])
    }
}

/// An operand that has to bind so tight.
pub fn put_operand<'a>(
    pending: &mut Pending<'a>,
    needed: Tightness,
    indent: usize,
    gap: Gap,
    clause: &'a Rough,
) -> Result<(), AllocError>
    ensures { OnOk result (Adds (waiting pending.old) (operand_lexemes indent (tightness_of needed) (gap_of gap) (phrase_of clause.now)) (weight (phrase_of clause.now)) (waiting pending.new)) }
{
    let spot = Spot {
        indent,
        behind: Behind::Other,
        gap,
    };
    if is_looser(&clause.form, needed) {
        put_bracketed(pending, spot, &clause.form)
    } else {
        pending.put(&[Piece::Form(spot, &clause.form)])
    }
}

fn put_bracketed<'a>(
    pending: &mut Pending<'a>,
    spot: Spot,
    form: &'a RoughForm,
) -> Result<(), AllocError>
    ensures { OnOk result (Adds (waiting pending.old) (in_brackets (gap_of spot.gap) (form_lexemes spot.indent other nothing (form_of form.now))) (weight_form (form_of form.now) + 3) (waiting pending.new)) }
{
    pending.put(&[
        Piece::Mark(spot.gap, mark::OPEN_ROUND),
        Piece::Form(spot.glued(), form),
        Piece::Mark(Gap::Nothing, mark::CLOSE_ROUND),
    ])
}

// Whether a form would take what stands after it.
fn is_taken(behind: Behind, form: &RoughForm) -> bool
    ensures { result ≡ is_taken (behind_of behind) (form_of form.now) }
{
    match behind {
        Behind::Other => false,
        Behind::BeforeDo => takes_do(form),
        Behind::BeforeComma => takes_comma(form),
        Behind::BeforeColon => takes_colon(form),
    }
}

fn takes_do(form: &RoughForm) -> bool
    ensures { result ≡ is_taken before_do (form_of form.now) }
{
    match form {
        RoughForm::Repeat { a: _, c: _, b } => b.is_none(),
        _ => false,
    }
}

fn takes_comma(form: &RoughForm) -> bool
    ensures { result ≡ is_taken before_comma (form_of form.now) }
{
    match form {
        RoughForm::Write { items: _ } => true,
        _ => false,
    }
}

fn takes_colon(form: &RoughForm) -> bool
    ensures { result ≡ is_taken before_colon (form_of form.now) }
{
    match form {
        RoughForm::Write { items } => ends_open(items.as_slice()),
        _ => false,
    }
}

// Whether the last item has no width.
fn ends_open(items: &[RoughItem]) -> bool
    ensures { result ≡ ends_open (items_in items.now) }
{
    match items.split_last() {
        Some((last, _)) => last.w.is_none(),
        None => false,
    }
}

fn is_looser(form: &RoughForm, needed: Tightness) -> bool
    ensures { result ≡ is_looser (form_of form.now) (tightness_of needed) }
{
    rank(tightness(form)) < rank(needed)
}

// The place of a tightness among all, the loosest first.
fn rank(tightness: Tightness) -> u8
    ensures { result ≡ number_of (tightness_of tightness) }
{
    match tightness {
        Tightness::Loosest => 0,
        Tightness::Disjunction => 1,
        Tightness::Conjunction => 2,
        Tightness::Negation => 3,
        Tightness::Comparison => 4,
        Tightness::Sum => 5,
        Tightness::Product => 6,
        Tightness::Signed => 7,
        Tightness::Application => 8,
        Tightness::Primary => 9,
    }
}

fn tightness(form: &RoughForm) -> Tightness
    ensures { tightness_of result ≡ tightness_in (form_of form.now) }
{
    match form {
        RoughForm::Or { a: _, b: _ } => Tightness::Disjunction,
        RoughForm::And { a: _, b: _ } => Tightness::Conjunction,
        RoughForm::Not { e: _ } => Tightness::Negation,
        RoughForm::Compare { op: _, a: _, b: _ } => Tightness::Comparison,
        RoughForm::Is {
            e: _,
            class: _,
            negated: _,
        } => Tightness::Comparison,
        RoughForm::Join { a: _, b: _ } => Tightness::Sum,
        RoughForm::Arith { op, a: _, b: _ } => Tightness::of_left(*op),
        RoughForm::Plus { e: _ } | RoughForm::Neg { e: _ } => Tightness::Signed,
        RoughForm::Apply { f: _, args: _ } => Tightness::Application,
        RoughForm::Part { s: _, i: _, n: _ } => Tightness::Application,
        RoughForm::Sequence { items: _ } => Tightness::Primary,
        RoughForm::Name(_)
        | RoughForm::Int(_)
        | RoughForm::Text(_)
        | RoughForm::Flag(_)
        | RoughForm::Nil => Tightness::Primary,
        RoughForm::Bound { upper: _, e: _ } => Tightness::Primary,
        RoughForm::Elems {
            l: _,
            ty: _,
            items: _,
        } => Tightness::Primary,
        _ => Tightness::Loosest,
    }
}
