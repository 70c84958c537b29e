ghost use Rattle.std.specs.Prelude.{◌+◌, ◌∷◌, ◌++◌, OnOk, option_map};
ghost use Rattle.ps_tree.specs.Phrase.{phrase_of, named as name_at};
ghost use Rattle.ps_tree.specs.Phrase as form;
ghost use Rattle.ps_tree.specs.PhraseLists.{arms_in, items_in, maybe_in};
ghost use Rattle.ps_tree.specs.declared.rough.RoughRange.{out-RoughRange};
ghost use Rattle.ps_layout.specs.Lexemes.{blank};
ghost use Rattle.ps_layout.specs.Layout.{before_do, the_word, do_word, clause_lexemes};
ghost use Rattle.ps_layout.specs.Weights.{weight};
ghost use Rattle.ps_layout.specs.Waiting.{waiting, gap_of, behind_of, Adds, AddsForm};

use crate::pending::Pending;
use crate::piece::{Behind, Gap, Piece, Spot, Tightness, deeper};
use ps_tree::ps_scan::{mark, word};
use ps_tree::rough::{Named, Rough, RoughArm, RoughItem, RoughRange};
use std::alloc::AllocError;

// A word, a condition, and what is done where it holds.
pub(crate) fn put_conditional<'a>(
    pending: &mut Pending<'a>,
    spot: Spot,
    first: u8,
    c: &'a Rough,
    a: &'a Rough,
) -> Result<(), AllocError>
    ensures { OnOk result (Adds (waiting pending.old) (the_word (gap_of spot.gap) first ∷ (clause_lexemes spot.indent before_do blank (phrase_of c.now) ++ do_word ∷ clause_lexemes spot.indent (behind_of spot.behind) blank (phrase_of a.now))) (weight (phrase_of c.now) + weight (phrase_of a.now) + 8) (waiting pending.new)) }
{
    pending.put(&[
        Piece::Word(spot.gap, first),
        Piece::Clause(spot.before(Behind::BeforeDo), c),
        Piece::Word(Gap::Blank, word::DO),
        Piece::Clause(spot.last(), a),
    ])
}

pub(crate) fn put_if_else<'a>(
    pending: &mut Pending<'a>,
    spot: Spot,
    c: &'a Rough,
    a: &'a Rough,
    b: &'a Rough,
) -> Result<(), AllocError>
    ensures { OnOk result (AddsForm (waiting pending.old) spot (form.IfElse (phrase_of c.now) (phrase_of a.now) (phrase_of b.now)) (waiting pending.new)) }
{
    pending.put(&[
        Piece::Word(spot.gap, word::IF),
        Piece::Clause(spot.before(Behind::Other), c),
        Piece::Word(Gap::Blank, word::THEN),
        Piece::Clause(spot.before(Behind::Other), a),
        Piece::Word(Gap::Blank, word::ELSE),
        Piece::Clause(spot.last(), b),
    ])
}

pub(crate) fn put_repeat<'a>(
    pending: &mut Pending<'a>,
    spot: Spot,
    a: &'a Rough,
    c: &'a Rough,
    b: &'a Option<Box<Rough>>,
) -> Result<(), AllocError>
    ensures { OnOk result (AddsForm (waiting pending.old) spot (form.Repeat (phrase_of a.now) (phrase_of c.now) (maybe_in (option_map (λ clause. clause.value) b.now))) (waiting pending.new)) }
{
    match b {
        None => put_repeat_while(pending, spot, a, c),
        Some(b) => put_repeat_do(pending, spot, a, c, b),
    }
}

fn put_repeat_while<'a>(
    pending: &mut Pending<'a>,
    spot: Spot,
    a: &'a Rough,
    c: &'a Rough,
) -> Result<(), AllocError>
    ensures { OnOk result (AddsForm (waiting pending.old) spot (form.Repeat (phrase_of a.now) (phrase_of c.now) form.absent) (waiting pending.new)) }
{
    pending.put(&[
        Piece::Word(spot.gap, word::REPEAT),
        Piece::Clause(spot.before(Behind::Other), a),
        Piece::Word(Gap::Blank, word::WHILE),
        Piece::Clause(spot.last(), c),
    ])
}

fn put_repeat_do<'a>(
    pending: &mut Pending<'a>,
    spot: Spot,
    a: &'a Rough,
    c: &'a Rough,
    b: &'a Rough,
) -> Result<(), AllocError>
    ensures { OnOk result (AddsForm (waiting pending.old) spot (form.Repeat (phrase_of a.now) (phrase_of c.now) (form.present (phrase_of b.now))) (waiting pending.new)) }
{
    pending.put(&[
        Piece::Word(spot.gap, word::REPEAT),
        Piece::Clause(spot.before(Behind::Other), a),
        Piece::Word(Gap::Blank, word::WHILE),
        Piece::Clause(spot.before(Behind::BeforeDo), c),
        Piece::Word(Gap::Blank, word::DO),
        Piece::Clause(spot.last(), b),
    ])
}

pub(crate) fn put_for<'a>(
    pending: &mut Pending<'a>,
    spot: Spot,
    name: &'a Named,
    range: &'a RoughRange,
    s: &'a Rough,
) -> Result<(), AllocError>
    ensures { OnOk result (AddsForm (waiting pending.old) spot (form.For (name_at name.now) (phrase_of (out-RoughRange range.now).a) (phrase_of (out-RoughRange range.now).b) (maybe_in (out-RoughRange range.now).c) (phrase_of s.now)) (waiting pending.new)) }
{
    match &range.c {
        None => put_for_to(pending, spot, name, &range.a, &range.b, s),
        Some(c) => put_for_by(pending, spot, name, &range.a, &range.b, c, s),
    }
}

fn put_for_to<'a>(
    pending: &mut Pending<'a>,
    spot: Spot,
    name: &'a Named,
    a: &'a Rough,
    b: &'a Rough,
    s: &'a Rough,
) -> Result<(), AllocError>
    ensures { OnOk result (AddsForm (waiting pending.old) spot (form.For (name_at name.now) (phrase_of a.now) (phrase_of b.now) form.absent (phrase_of s.now)) (waiting pending.new)) }
{
    pending.put(&[
        Piece::Word(spot.gap, word::FOR),
        Piece::Name(Gap::Blank, name.name.as_slice()),
        Piece::Mark(Gap::Blank, mark::EQUALS),
        Piece::Clause(spot.before(Behind::Other), a),
        Piece::Word(Gap::Blank, word::TO),
        Piece::Clause(spot.before(Behind::BeforeDo), b),
        Piece::Word(Gap::Blank, word::DO),
        Piece::Clause(spot.last(), s),
    ])
}

fn put_for_by<'a>(
    pending: &mut Pending<'a>,
    spot: Spot,
    name: &'a Named,
    a: &'a Rough,
    b: &'a Rough,
    c: &'a Rough,
    s: &'a Rough,
) -> Result<(), AllocError>
    ensures { OnOk result (AddsForm (waiting pending.old) spot (form.For (name_at name.now) (phrase_of a.now) (phrase_of b.now) (form.present (phrase_of c.now)) (phrase_of s.now)) (waiting pending.new)) }
{
    pending.put(&[
        Piece::Word(spot.gap, word::FOR),
        Piece::Name(Gap::Blank, name.name.as_slice()),
        Piece::Mark(Gap::Blank, mark::EQUALS),
        Piece::Clause(spot.before(Behind::Other), a),
        Piece::Word(Gap::Blank, word::TO),
        Piece::Clause(spot.before(Behind::Other), b),
        Piece::Word(Gap::Blank, word::BY),
        Piece::Clause(spot.before(Behind::BeforeDo), c),
        Piece::Word(Gap::Blank, word::DO),
        Piece::Clause(spot.last(), s),
    ])
}

pub(crate) fn put_case<'a>(
    pending: &mut Pending<'a>,
    spot: Spot,
    e: &'a Rough,
    arms: &'a [RoughArm],
    d: &'a Rough,
) -> Result<(), AllocError>
    ensures { OnOk result (AddsForm (waiting pending.old) spot (form.Case (phrase_of e.now) (arms_in arms.now) (phrase_of d.now)) (waiting pending.new)) }
{
    let inner = deeper(spot.indent)?;
    let last = Spot {
        indent: inner,
        ..spot.last()
    };
    pending.put(&[
        Piece::Word(spot.gap, word::CASE),
        Piece::Clause(spot.before(Behind::Other), e),
        Piece::Word(Gap::Blank, word::OF),
        Piece::Arms(inner, arms),
        Piece::Word(Gap::Newline(inner), word::DEFAULT),
        Piece::Mark(Gap::Blank, mark::COLON),
        Piece::Clause(last, d),
    ])
}

pub(crate) fn put_assign<'a>(
    pending: &mut Pending<'a>,
    spot: Spot,
    x: &'a Rough,
    e: &'a Rough,
) -> Result<(), AllocError>
    ensures { OnOk result (AddsForm (waiting pending.old) spot (form.Assign (phrase_of x.now) (phrase_of e.now)) (waiting pending.new)) }
{
    pending.put(&[
        Piece::Operand(Tightness::Disjunction, spot.indent, spot.gap, x),
        Piece::Mark(Gap::Blank, mark::BECOMES),
        Piece::Clause(spot.last(), e),
    ])
}

/// Items of a `write`.
pub(crate) fn put_write<'a>(
    pending: &mut Pending<'a>,
    spot: Spot,
    items: &'a [RoughItem],
) -> Result<(), AllocError>
    ensures { OnOk result (AddsForm (waiting pending.old) spot (form.Write (items_in items.now)) (waiting pending.new)) }
{
    pending.put(&[
        Piece::Word(spot.gap, word::WRITE),
        Piece::Items(spot.indent, spot.behind, items),
    ])
}
