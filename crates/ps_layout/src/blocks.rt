ghost use Rattle.std.specs.Prelude.{OnOk};
ghost use Rattle.ps_tree.specs.Phrase.{phrase_of};
ghost use Rattle.ps_tree.specs.Phrase as form;
ghost use Rattle.ps_tree.specs.PhraseLists.{phrases_in};
ghost use Rattle.ps_layout.specs.Waiting.{waiting, AddsForm};

use crate::pending::Pending;
use crate::piece::{Gap, Piece, Spot, deeper};
use ps_tree::ps_scan::mark;
use ps_tree::rough::Rough;
use std::alloc::AllocError;

// A block in braces: each item on a line of its own.
pub(crate) fn put_block<'a>(
    pending: &mut Pending<'a>,
    spot: Spot,
    items: &'a [Rough],
) -> Result<(), AllocError>
    ensures { OnOk result (AddsForm (waiting pending.old) spot (form.Sequence (phrases_in items.now)) (waiting pending.new)) }
{
    match items.split_first() {
        None => pending.put(&[
            Piece::Mark(spot.gap, mark::OPEN_CURLY),
            Piece::Mark(Gap::Nothing, mark::CLOSE_CURLY),
        ]),
        Some((first, rest)) => put_full_block(pending, spot, first, rest),
    }
}

fn put_full_block<'a>(
    pending: &mut Pending<'a>,
    spot: Spot,
    first: &'a Rough,
    rest: &'a [Rough],
) -> Result<(), AllocError>
    ensures { OnOk result (AddsForm (waiting pending.old) spot (form.Sequence (form.more (phrase_of first.now) (phrases_in rest.now))) (waiting pending.new)) }
{
    let inner = deeper(spot.indent)?;
    pending.put(&[
        Piece::Mark(spot.gap, mark::OPEN_CURLY),
        Piece::Clause(Spot::on_line(inner), first),
        Piece::Mark(Gap::Nothing, mark::SEMICOLON),
        Piece::Lines(inner, rest),
        Piece::Mark(Gap::Newline(spot.indent), mark::CLOSE_CURLY),
    ])
}
