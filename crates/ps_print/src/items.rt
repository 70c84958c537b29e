ghost use Rattle.std.specs.Prelude.{◌≡◌, ◌+◌, ◌∷◌, ◌++◌, OnOk};
ghost use Rattle.ps_tree.specs.Phrase.{phrase_of, arm_of, item_of};
ghost use Rattle.ps_tree.specs.Phrase as phrase;
ghost use Rattle.ps_tree.specs.PhraseLists.{phrases_in, arms_in, items_in};
ghost use Rattle.ps_type_pieces.specs.ps_layout.Lexemes.{blank};
ghost use Rattle.ps_type_pieces.specs.ps_layout.Layout.{before_colon, colon, behind_item, clause_lexemes, arms_lexemes, arm_lexemes, items_lexemes, more_items_lexemes, item_lexemes};
ghost use Rattle.ps_type_pieces.specs.ps_layout.Weights.{weight, weight_arms, weight_arm, weight_items, weight_item};
ghost use Rattle.ps_type_pieces.specs.ps_layout.Waiting.{waiting, gap_of, behind_of, Adds};

use ps_tree::ps_scan::mark;
use ps_tree::rough::{Rough, RoughArm, RoughItem};
use ps_type_pieces::ps_layout::pending::Pending;
use ps_type_pieces::ps_layout::piece::{Behind, Gap, Piece, Spot};
use std::alloc::AllocError;

// The arms of a `case`, each on a line of its own.
pub(crate) fn put_arms<'a>(
    pending: &mut Pending<'a>,
    indent: usize,
    arms: &'a [RoughArm],
) -> Result<(), AllocError>
    ensures { OnOk result (Adds (waiting pending.old) (arms_lexemes indent (arms_in arms.now)) (weight_arms (arms_in arms.now)) (waiting pending.new)) }
{
    match arms.split_first() {
        None => Ok(()),
        Some((first, rest)) => {
            pending.put(&[Piece::Arm(indent, first), Piece::Arms(indent, rest)])
        }
    }
}

pub(crate) fn put_arm<'a>(
    pending: &mut Pending<'a>,
    indent: usize,
    arm: &'a RoughArm,
) -> Result<(), AllocError>
    ensures { OnOk result (Adds (waiting pending.old) (arm_lexemes indent (arm_of arm.now)) (weight_arm (arm_of arm.now)) (waiting pending.new)) }
{
    put_labelled(pending, indent, arm.labels.as_slice(), &arm.a)
}

fn put_labelled<'a>(
    pending: &mut Pending<'a>,
    indent: usize,
    labels: &'a [Rough],
    a: &'a Rough,
) -> Result<(), AllocError>
    ensures { OnOk result (Adds (waiting pending.old) (arm_lexemes indent (phrase.arm (phrases_in labels.now) (phrase_of a.now))) (weight_arm (phrase.arm (phrases_in labels.now) (phrase_of a.now))) (waiting pending.new)) }
{
    let first = Spot {
        indent,
        behind: Behind::BeforeColon,
        gap: Gap::Newline(indent),
    };
    let clause = Spot {
        indent,
        behind: Behind::Other,
        gap: Gap::Blank,
    };
    pending.put(&[
        Piece::Clauses(first, labels),
        Piece::Mark(Gap::Blank, mark::COLON),
        Piece::Clause(clause, a),
        Piece::Mark(Gap::Nothing, mark::SEMICOLON),
    ])
}

// The items of a `write`, with commas between them.
pub(crate) fn put_items<'a>(
    pending: &mut Pending<'a>,
    indent: usize,
    last: Behind,
    items: &'a [RoughItem],
) -> Result<(), AllocError>
    ensures { OnOk result (Adds (waiting pending.old) (items_lexemes indent (behind_of last) (items_in items.now)) (weight_items (items_in items.now)) (waiting pending.new)) }
{
    match items.split_first() {
        None => Ok(()),
        Some((first, rest)) => pending.put(&[
            Piece::Item(indent, behind_item(last, rest), first),
            Piece::MoreItems(indent, last, rest),
        ]),
    }
}

pub(crate) fn put_more_items<'a>(
    pending: &mut Pending<'a>,
    indent: usize,
    last: Behind,
    items: &'a [RoughItem],
) -> Result<(), AllocError>
    ensures { OnOk result (Adds (waiting pending.old) (more_items_lexemes indent (behind_of last) (items_in items.now)) (weight_items (items_in items.now)) (waiting pending.new)) }
{
    match items.split_first() {
        None => Ok(()),
        Some((first, rest)) => pending.put(&[
            Piece::Mark(Gap::Nothing, mark::COMMA),
            Piece::Item(indent, behind_item(last, rest), first),
            Piece::MoreItems(indent, last, rest),
        ]),
    }
}

// What stands after an item before these.
fn behind_item(last: Behind, rest: &[RoughItem]) -> Behind
    ensures { behind_of result ≡ behind_item (behind_of last) (items_in rest.now) }
{
    match rest.split_first() {
        None => last,
        Some(_) => Behind::BeforeComma,
    }
}

pub(crate) fn put_item<'a>(
    pending: &mut Pending<'a>,
    indent: usize,
    last: Behind,
    item: &'a RoughItem,
) -> Result<(), AllocError>
    ensures { OnOk result (Adds (waiting pending.old) (item_lexemes indent (behind_of last) (item_of item.now)) (weight_item (item_of item.now)) (waiting pending.new)) }
{
    let end = Spot {
        indent,
        behind: last,
        gap: Gap::Blank,
    };
    match &item.w {
        None => pending.put(&[Piece::Clause(end, &item.e)]),
        Some(w) => put_wide(pending, end, &item.e, w),
    }
}

// An item with its width.
fn put_wide<'a>(
    pending: &mut Pending<'a>,
    end: Spot,
    e: &'a Rough,
    w: &'a Rough,
) -> Result<(), AllocError>
    ensures { OnOk result (Adds (waiting pending.old) (clause_lexemes end.indent before_colon blank (phrase_of e.now) ++ colon ∷ clause_lexemes end.indent (behind_of end.behind) (gap_of end.gap) (phrase_of w.now)) (weight (phrase_of e.now) + (weight (phrase_of w.now) + 2) + 4) (waiting pending.new)) }
{
    pending.put(&[
        Piece::Clause(end.before(Behind::BeforeColon), e),
        Piece::Mark(Gap::Blank, mark::COLON),
        Piece::Clause(end, w),
    ])
}
