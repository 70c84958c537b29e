//! A typed tree as a line of text.

use crate::form::put_form;
use ps_program::form::{Arm, Tree, TreeForm};
use ps_program::parts::{Further, Parts};
use row_words::table_rows::Buffer;

/// What is still to be told.
#[derive(Clone, Copy)]
enum Item<'a> {
    Mark(&'static str),
    Clauses(Further<'a>),
}

/// Writes a tree as a line of text: a clause as its form with its places, types and lines, and its parts, in brackets; a place as
/// `P` and its slot, or as `K`, so many scopes outward, and its position.
pub fn put_shown(out: &mut Buffer, tree: &Tree) {
    let mut pending = Vec::new(out.alloc());
    put_tree(out, &mut pending, tree);
    put_pending(out, &mut pending);
}

// Writes all that is pending, the last of it first.
fn put_pending<'a>(out: &mut Buffer, pending: &mut Vec<Item<'a>>) {
    for _ in 0..u32::MAX {
        match pending.pop() {
            Some(item) => put_item(out, pending, item),
            None => return,
        }
    }
}

fn put_item<'a>(out: &mut Buffer, pending: &mut Vec<Item<'a>>, item: Item<'a>) {
    match item {
        Item::Mark(mark) => out.put(mark),
        Item::Clauses(further) => put_further(out, pending, further),
    }
}

// Writes the first of these clauses, and leaves those after it pending.
fn put_further<'a>(out: &mut Buffer, pending: &mut Vec<Item<'a>>, further: Further<'a>) {
    match further {
        Further::Nothing => {}
        Further::One(a) | Further::OneBranch(a) => put_clause(out, pending, a),
        Further::Two(a, b) | Further::TwoBranches(a, b) => {
            put_first(out, pending, a, Further::One(b));
        }
        Further::Three(a, b, c) => put_first(out, pending, a, Further::Two(b, c)),
        Further::Branches(trees) | Further::Operands(trees) => put_clauses(out, pending, trees),
        Further::Arms(arms, d) => put_arms(out, pending, arms, d),
    }
}

fn put_first<'a>(
    out: &mut Buffer,
    pending: &mut Vec<Item<'a>>,
    first: &'a Tree,
    behind: Further<'a>,
) {
    put_later(out, pending, Item::Clauses(behind));
    put_clause(out, pending, first);
}

fn put_clauses<'a>(out: &mut Buffer, pending: &mut Vec<Item<'a>>, trees: &'a [Tree]) {
    if let [first, behind @ ..] = trees {
        put_first(out, pending, first, Further::Operands(behind));
    }
}

fn put_arms<'a>(out: &mut Buffer, pending: &mut Vec<Item<'a>>, arms: &'a [Arm], d: &'a Tree) {
    match arms {
        [] => {
            out.put(" else");
            put_clause(out, pending, d);
        }
        [arm, behind @ ..] => {
            put_later(out, pending, Item::Clauses(Further::Arms(behind, d)));
            put_arm(out, pending, arm);
        }
    }
}

fn put_arm<'a>(out: &mut Buffer, pending: &mut Vec<Item<'a>>, arm: &'a Arm) {
    put_later(out, pending, Item::Clauses(Further::One(&arm.a)));
    put_later(out, pending, Item::Mark(" then"));
    out.put(" when");
    put_clauses(out, pending, arm.labels.as_slice());
}

fn put_clause<'a>(out: &mut Buffer, pending: &mut Vec<Item<'a>>, tree: &'a Tree) {
    out.put(" ");
    put_tree(out, pending, tree);
}

// Writes a clause, but for its parts, which are left pending.
fn put_tree<'a>(out: &mut Buffer, pending: &mut Vec<Item<'a>>, tree: &'a Tree) {
    match tree.parts() {
        Parts::Clauses {
            first: None,
            further: Further::Nothing,
        } => put_form(out, &tree.form),
        Parts::Clauses { first, further } => {
            put_opened(out, pending, &tree.form, further);
            if let Some(first) = first {
                put_later(out, pending, Item::Clauses(Further::One(first)));
            }
        }
        Parts::Literal(body) => {
            put_opened(out, pending, &tree.form, Further::One(&body.tree));
        }
    }
}

// Writes the bracket and the form that these clauses stand after.
fn put_opened<'a>(
    out: &mut Buffer,
    pending: &mut Vec<Item<'a>>,
    form: &TreeForm,
    further: Further<'a>,
) {
    out.put("(");
    put_form(out, form);
    put_later(out, pending, Item::Mark(")"));
    put_later(out, pending, Item::Clauses(further));
}

// Leaves an item pending.
fn put_later<'a>(out: &mut Buffer, pending: &mut Vec<Item<'a>>, item: Item<'a>) {
    if pending.push(item).is_err() {
        out.fail();
    }
}
