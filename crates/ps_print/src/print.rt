ghost use Rattle.std.specs.Prelude.{◌≡◌, ◌<◌, ◌∷◌, [], ◌++◌, IfOk, OnOk};
ghost use Rattle.ps_tree.specs.Phrase.{phrase_of};
ghost use Rattle.ps_type_pieces.specs.ps_layout.Lexemes.{text_of};
ghost use Rattle.ps_type_pieces.specs.ps_layout.Layout.{layout, printed};
ghost use Rattle.ps_type_pieces.specs.ps_layout.Weights.{weight};
ghost use Rattle.ps_type_pieces.specs.ps_layout.Waiting.{waiting, lexemes_of, is_empty_program, Adds, Prints};

use crate::clauses::{put_clause, put_operand};
use crate::items::{put_arm, put_arms, put_item, put_items, put_more_items};
use crate::lines::{put_clauses, put_lines, put_more_clauses, put_program};
use ps_lexemes::writer::{
    write_end, write_int, write_mark, write_spelling, write_string, write_word,
};
use ps_tree::rough::{Rough, RoughForm};
use ps_type_pieces::ps_layout::forms::put_form;
use ps_type_pieces::ps_layout::pending::Pending;
use ps_type_pieces::ps_layout::piece::{Behind, Gap, Piece, Spot};
use ps_type_pieces::types::{
    put_gives, put_groups, put_heading, put_more_groups, put_more_types, put_named, put_type,
    put_types,
};
use std::alloc::{AllocError, Global};

/// Prints a tree as a text that is read as that tree again: blocks in braces, each item on a line of
/// its own, one blank round operators, and brackets where the grammar needs them. The error is want
/// of memory; what was printed until then is let go (`docs/language.md`).
pub fn print(alloc: Global, tree: &Rough) -> Result<Vec<u8>, AllocError>
    ensures { IfOk result (λ text. text.items ≡ printed (phrase_of tree.now)) }
{
    let mut text = Vec::new(alloc);
    if is_empty_program(tree) {
        return Ok(text);
    }
    let mut pending = Pending::new(alloc);
    put_tree(&mut pending, tree)?;
    write_all(&mut text, pending)?;
    write_end(&mut text)?;
    Ok(text)
}

// Whether there is nothing to be printed.
fn is_empty_program(tree: &Rough) -> bool
    ensures { result ≡ is_empty_program (phrase_of tree.now) }
{
    match &*tree.form {
        RoughForm::Sequence { items } => items.as_slice().is_empty(),
        _ => false,
    }
}

// The pieces of a whole tree: the items of a program stand without braces.
fn put_tree<'a>(pending: &mut Pending<'a>, tree: &'a Rough) -> Result<(), AllocError>
    ensures { OnOk result (Adds (waiting pending.old) (layout (phrase_of tree.now)) (weight (phrase_of tree.now)) (waiting pending.new)) }
{
    let spot = Spot {
        indent: 0,
        behind: Behind::Other,
        gap: Gap::Nothing,
    };
    match &*tree.form {
        RoughForm::Sequence { items } => put_program(pending, spot, items.as_slice()),
        _ => pending.put(&[Piece::Form(spot, &tree.form)]),
    }
}

// Writes the pieces one after the other. A piece that is made of others gives way to them, so the
// recursion of the tree is in the list of pieces, and a chain of operators of any length is printed.
fn write_all(text: &mut Vec<u8>, mut pending: Pending) -> Result<(), AllocError>
    ensures { OnOk result (text.new.items ≡ text.old.items ++ text_of (lexemes_of (waiting pending.entry))) }
{
    while let Some(piece) = pending.next() {
        step(text, &mut pending, piece)?;
    }
    Ok(())
}

// Writes a lexeme, or puts the pieces that this one is made of in its place.
fn step<'a>(
    text: &mut Vec<u8>,
    pending: &mut Pending<'a>,
    piece: Piece<'a>,
) -> Result<(), AllocError>
    ensures { OnOk result (Prints text.old.items (piece.entry ∷ waiting pending.old) text.new.items (waiting pending.new)) }
{
    match piece {
        Piece::Word(gap, place) => write_word(text, gap, place),
        Piece::Mark(gap, place) => write_mark(text, gap, place),
        Piece::Name(gap, name) => write_spelling(text, gap, name),
        Piece::Int(gap, value) => write_int(text, gap, value),
        Piece::Text(gap, bytes) => write_string(text, gap, bytes),
        Piece::Form(spot, form) => put_form(pending, spot, form),
        Piece::Clause(spot, clause) => put_clause(pending, spot, clause),
        Piece::Operand(needed, indent, gap, clause) => {
            put_operand(pending, needed, indent, gap, clause)
        }
        Piece::Lines(indent, items) => put_lines(pending, indent, items),
        Piece::Clauses(spot, items) => put_clauses(pending, spot, items),
        Piece::MoreClauses(indent, last, items) => put_more_clauses(pending, indent, last, items),
        Piece::Arms(indent, arms) => put_arms(pending, indent, arms),
        Piece::Arm(indent, arm) => put_arm(pending, indent, arm),
        Piece::Items(indent, last, items) => put_items(pending, indent, last, items),
        Piece::MoreItems(indent, last, items) => put_more_items(pending, indent, last, items),
        Piece::Item(indent, last, item) => put_item(pending, indent, last, item),
        Piece::Type(gap, ty) => put_type(pending, gap, ty),
        Piece::Types(tys) => put_types(pending, tys),
        Piece::MoreTypes(tys) => put_more_types(pending, tys),
        Piece::Gives(ty) => put_gives(pending, ty),
        Piece::Groups(groups) => put_groups(pending, groups),
        Piece::MoreGroups(ty, names, groups) => put_more_groups(pending, ty, names, groups),
        Piece::Named(gap, ty, name) => put_named(pending, gap, ty, name),
        Piece::Heading(params, gives) => put_heading(pending, params, gives),
    }
}
