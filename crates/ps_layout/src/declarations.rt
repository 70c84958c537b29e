ghost use Rattle.std.specs.Prelude.{◌≡◌, false, ◌+◌, ◌∷◌, [], OnOk};
ghost use Rattle.ps_base.specs.TyView.{ty_view};
ghost use Rattle.ps_base.specs.declared.line.Line.{Line};
ghost use Rattle.ps_tree.specs.Phrase.{phrase_of, groups_in, named as name_at};
ghost use Rattle.ps_tree.specs.Phrase as form;
ghost use Rattle.ps_layout.specs.Layout.{becomes as becomes_of};
ghost use Rattle.ps_layout.specs.Weights.{weight};
ghost use Rattle.ps_layout.specs.Waiting.{waiting, Adds, AddsForm, let_lexemes, piece_lexemes};

use crate::pending::Pending;
use crate::piece::{Gap, Piece, Spot};
use ps_base::ty::Ty;
use ps_tree::ps_scan::{mark, word};
use ps_tree::rough::{Group, Named, Rough, RoughForm};
use std::alloc::AllocError;

pub(crate) fn put_let<'a>(
    pending: &mut Pending<'a>,
    spot: Spot,
    name: &'a Named,
    variable: bool,
    e: &'a Rough,
) -> Result<(), AllocError>
    ensures { OnOk result (AddsForm (waiting pending.old) spot (form.Let (name_at name.now) variable (phrase_of e.now)) (waiting pending.new)) }
{
    if variable {
        return put_plain_let(pending, spot, name, variable, e);
    }
    match &*e.form {
        RoughForm::Proc { params, gives, s } => {
            put_procedure(pending, spot, name, params.as_slice(), gives, s)
        }
        _ => put_plain_let(pending, spot, name, variable, e),
    }
}

pub(crate) fn put_procedure<'a>(
    pending: &mut Pending<'a>,
    spot: Spot,
    name: &'a Named,
    params: &'a [Group],
    gives: &'a Ty,
    s: &'a Rough,
) -> Result<(), AllocError>
    ensures { (line : Line) → OnOk result (AddsForm (waiting pending.old) spot (form.Let (name_at name.now) false (form.at (form.Proc (groups_in params.now) (ty_view gives.now) (phrase_of s.now)) line)) (waiting pending.new)) }
{
    pending.put(&[
        Piece::Word(spot.gap, word::PROCEDURE),
        Piece::Name(Gap::Blank, name.name.as_slice()),
        Piece::Heading(params, gives),
        Piece::Clause(spot.last(), s),
    ])
}

pub(crate) fn put_plain_let<'a>(
    pending: &mut Pending<'a>,
    spot: Spot,
    name: &'a Named,
    variable: bool,
    e: &'a Rough,
) -> Result<(), AllocError>
    ensures { OnOk result (Adds (waiting pending.old) (let_lexemes spot (name_at name.now) variable (phrase_of e.now)) (weight (phrase_of e.now) + 8) (waiting pending.new)) }
{
    pending.put(&[
        Piece::Word(spot.gap, word::LET),
        Piece::Name(Gap::Blank, name.name.as_slice()),
        Piece::Mark(Gap::Blank, becomes(variable)),
        Piece::Clause(spot.last(), e),
    ])
}

pub(crate) fn put_structure<'a>(
    pending: &mut Pending<'a>,
    spot: Spot,
    name: &'a Named,
    fields: &'a [Group],
) -> Result<(), AllocError>
    ensures { OnOk result (AddsForm (waiting pending.old) spot (form.Structure (name_at name.now) (groups_in fields.now)) (waiting pending.new)) }
{
    pending.put(&[
        Piece::Word(spot.gap, word::STRUCTURE),
        Piece::Name(Gap::Blank, name.name.as_slice()),
        Piece::Mark(Gap::Nothing, mark::OPEN_ROUND),
        Piece::Groups(fields),
        Piece::Mark(Gap::Nothing, mark::CLOSE_ROUND),
    ])
}

pub(crate) fn put_proc<'a>(
    pending: &mut Pending<'a>,
    spot: Spot,
    params: &'a [Group],
    gives: &'a Ty,
    s: &'a Rough,
) -> Result<(), AllocError>
    ensures { OnOk result (AddsForm (waiting pending.old) spot (form.Proc (groups_in params.now) (ty_view gives.now) (phrase_of s.now)) (waiting pending.new)) }
{
    pending.put(&[
        Piece::Word(spot.gap, word::PROC),
        Piece::Heading(params, gives),
        Piece::Clause(spot.last(), s),
    ])
}

// `:=` for a variable, `=` for a constant.
fn becomes(variable: bool) -> u8
    ensures { piece_lexemes (Piece.Mark Gap.Blank result) ≡ becomes_of variable ∷ [] }
{
    if variable {
        mark::BECOMES
    } else {
        mark::EQUALS
    }
}
