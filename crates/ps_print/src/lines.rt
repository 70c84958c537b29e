ghost use Rattle.std.specs.Prelude.{◌≡◌, OnOk};
ghost use Rattle.ps_tree.specs.Phrase.{phrase_of};
ghost use Rattle.ps_tree.specs.PhraseLists.{phrases_in};
ghost use Rattle.ps_type_pieces.specs.ps_layout.Layout.{behind_clause, program_lexemes, lines_lexemes, clauses_lexemes, more_clauses_lexemes};
ghost use Rattle.ps_type_pieces.specs.ps_layout.Weights.{weight_all};
ghost use Rattle.ps_type_pieces.specs.ps_layout.Waiting.{waiting, gap_of, behind_of, Adds};

use ps_tree::ps_scan::mark;
use ps_tree::rough::Rough;
use ps_type_pieces::ps_layout::pending::Pending;
use ps_type_pieces::ps_layout::piece::{Behind, Gap, Piece, Spot};
use std::alloc::AllocError;

/// The items of a program, which stand without braces.
pub fn put_program<'a>(
    pending: &mut Pending<'a>,
    spot: Spot,
    items: &'a [Rough],
) -> Result<(), AllocError>
    ensures { spot ≡ record { indent = 0; behind = Behind.Other; gap = Gap.Nothing } → OnOk result (Adds (waiting pending.old) (program_lexemes (phrases_in items.now)) (weight_all (phrases_in items.now)) (waiting pending.new)) }
{
    match items.split_first() {
        None => Ok(()),
        Some((first, rest)) => pending.put(&[
            Piece::Clause(spot, first),
            Piece::Mark(Gap::Nothing, mark::SEMICOLON),
            Piece::Lines(0, rest),
        ]),
    }
}

pub(crate) fn put_lines<'a>(
    pending: &mut Pending<'a>,
    indent: usize,
    items: &'a [Rough],
) -> Result<(), AllocError>
    ensures { OnOk result (Adds (waiting pending.old) (lines_lexemes indent (phrases_in items.now)) (weight_all (phrases_in items.now)) (waiting pending.new)) }
{
    match items.split_first() {
        None => Ok(()),
        Some((first, rest)) => pending.put(&[
            Piece::Clause(Spot::on_line(indent), first),
            Piece::Mark(Gap::Nothing, mark::SEMICOLON),
            Piece::Lines(indent, rest),
        ]),
    }
}

pub(crate) fn put_clauses<'a>(
    pending: &mut Pending<'a>,
    spot: Spot,
    items: &'a [Rough],
) -> Result<(), AllocError>
    ensures { OnOk result (Adds (waiting pending.old) (clauses_lexemes spot.indent (gap_of spot.gap) (behind_of spot.behind) (phrases_in items.now)) (weight_all (phrases_in items.now)) (waiting pending.new)) }
{
    match items.split_first() {
        None => Ok(()),
        Some((first, rest)) => {
            let here = Spot {
                behind: behind_clause(spot.behind, rest),
                ..spot
            };
            pending.put(&[
                Piece::Clause(here, first),
                Piece::MoreClauses(spot.indent, spot.behind, rest),
            ])
        }
    }
}

pub(crate) fn put_more_clauses<'a>(
    pending: &mut Pending<'a>,
    indent: usize,
    last: Behind,
    items: &'a [Rough],
) -> Result<(), AllocError>
    ensures { OnOk result (Adds (waiting pending.old) (more_clauses_lexemes indent (behind_of last) (phrases_in items.now)) (weight_all (phrases_in items.now)) (waiting pending.new)) }
{
    match items.split_first() {
        None => Ok(()),
        Some((first, rest)) => {
            let here = Spot {
                indent,
                behind: behind_clause(last, rest),
                gap: Gap::Blank,
            };
            pending.put(&[
                Piece::Mark(Gap::Nothing, mark::COMMA),
                Piece::Clause(here, first),
                Piece::MoreClauses(indent, last, rest),
            ])
        }
    }
}

// What stands after an item before these.
fn behind_clause(last: Behind, rest: &[Rough]) -> Behind
    ensures { behind_of result ≡ behind_clause (behind_of last) (phrases_in rest.now) }
{
    match rest.split_first() {
        None => last,
        Some(_) => Behind::BeforeComma,
    }
}
