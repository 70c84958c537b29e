//! Checks the typing rules on the texts of tables: those that fit them, each with its typed tree, and those that break one, each with its
//! first fault. It prints how many rows hold, and of each other one what was found.
#![tactic(auto)]

mod checking;
mod form;
mod literals;
mod patterns;
mod show;

use crate::checking::{Telling, put_answer};
use crate::literals::{put_literal_trees, text_of_literals};
use crate::patterns::text_of;
use row_words::anyhow::Result;
use row_words::table_rows::{Buffer, Row, Tables};

/// What the rows of a table are.
#[derive(Clone, Copy)]
enum Kind {
    /// Texts that fit the rules, each with its typed tree.
    Trees,
    /// Texts that break a rule, each after its first fault.
    Faults,
    /// Patterns of texts at the limits and far past what has none, each with its fault.
    Patterns,
    /// Numbers of literals inside one another.
    Literals,
}

const TABLES: [(&str, Kind); 22] = [
    ("clause_trees.rows", Kind::Trees),
    ("operator_trees.rows", Kind::Trees),
    ("application_trees.rows", Kind::Trees),
    ("procedure_trees.rows", Kind::Trees),
    ("kept_names.rows", Kind::Trees),
    ("parameter_scopes.rows", Kind::Trees),
    ("loops_and_scans.rows", Kind::Trees),
    ("locals.rows", Kind::Trees),
    ("unknown_names.rows", Kind::Faults),
    ("names_declared_twice.rows", Kind::Faults),
    ("clause_types.rows", Kind::Faults),
    ("operand_types.rows", Kind::Faults),
    ("value_types.rows", Kind::Faults),
    ("library_types.rows", Kind::Faults),
    ("sequence_types.rows", Kind::Faults),
    ("lines_of_parts.rows", Kind::Faults),
    ("assignments.rows", Kind::Faults),
    ("applications.rows", Kind::Faults),
    ("limits.rows", Kind::Patterns),
    ("chains.rows", Kind::Patterns),
    ("two_bodies.rows", Kind::Patterns),
    ("literals.rows", Kind::Literals),
];

// What is told of a row that wants nothing that can be told.
const NOTHING: &[u8] = b"nothing can be wanted";

fn main(rt: HostRuntime) -> Result<()> {
    let mut tables = Tables::new(&rt)?;
    for (file, kind) in &TABLES {
        compare_rows(&mut tables, file, *kind)?;
    }
    tables.tell(&rt)
}

fn compare_rows(tables: &mut Tables, file: &str, kind: Kind) -> Result<()> {
    let rows = tables.rows(file)?;
    compare_all(tables, file, &rows, kind)
}

fn compare_all(tables: &mut Tables, file: &str, rows: &[Row], kind: Kind) -> Result<()> {
    for row in rows {
        compare_row(tables, file, row, kind)?;
    }
    Ok(())
}

fn compare_row(tables: &mut Tables, file: &str, row: &Row, kind: Kind) -> Result<()> {
    let mut found = Buffer::new(tables.alloc);
    put_found(&mut found, row, kind);
    let mut wanted = Buffer::new(tables.alloc);
    put_wanted(&mut wanted, row, kind);
    tables.compare_told(file, row, &found, wanted.told().unwrap_or(NOTHING))
}

// Writes what is found of a row.
fn put_found(out: &mut Buffer, row: &Row, kind: Kind) {
    match kind {
        Kind::Trees | Kind::Faults => put_answer(out, row.field(0), Telling::Tree),
        Kind::Patterns => put_answer_on(out, &text_of(out.alloc(), row), Telling::Fits),
        Kind::Literals => {
            put_answer_on(
                out,
                &text_of_literals(out.alloc(), row.number(0)),
                Telling::Tree,
            );
        }
    }
}

// Writes what the check answers on a text that was made.
fn put_answer_on(out: &mut Buffer, text: &Buffer, telling: Telling) {
    match text.told() {
        Some(text) => put_answer(out, text, telling),
        None => out.fail(),
    }
}

// Writes what a row wants to be found.
fn put_wanted(out: &mut Buffer, row: &Row, kind: Kind) {
    match kind {
        Kind::Trees | Kind::Patterns => out.bytes(row.field(1)),
        Kind::Faults => out.bytes(row.head.as_slice()),
        Kind::Literals => put_literal_trees(out, row.number(0)),
    }
}
