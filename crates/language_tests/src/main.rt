//! Checks the tree and the parser on the texts of tables, each with its tree or its first fault, and on the forms of the tree, each made of
//! its parts. It prints how many rows hold, and of each other one what was found.
#![tactic(auto)]

mod faults;
mod forms;
mod show;

use crate::faults::{put_fault, put_fault_of_levels, put_faults_at_the_limit};
use crate::forms::put_form;
use crate::show::put_tree;
use row_words::anyhow::Result;
use row_words::table_rows::{Buffer, Row, Tables};

/// What the rows of a table are.
#[derive(Clone, Copy)]
enum Kind {
    /// Texts, each with its tree.
    Trees,
    /// Texts, each after its first fault.
    Faults,
    /// The forms of the tree, each with the tree that is made.
    Forms,
    /// Texts of one form inside itself, each after the most levels that are read.
    Nestings,
    /// Texts of many levels or many links, each with its fault.
    Levels,
}

const TABLES: [(&str, Kind); 7] = [
    ("expression_trees.rows", Kind::Trees),
    ("clause_trees.rows", Kind::Trees),
    ("clause_faults.rows", Kind::Faults),
    ("declaration_and_loop_faults.rows", Kind::Faults),
    ("forms.rows", Kind::Forms),
    ("nestings.rows", Kind::Nestings),
    ("levels_and_links.rows", Kind::Levels),
];

// What is found of a text of the most levels that are read, and of one level more.
const AT_THE_LIMIT: &[u8] = b"none, then 2@1";

fn main(rt: HostRuntime) -> Result<()> {
    let mut tables = Tables::new(&rt)?;
    for (file, kind) in &TABLES {
        compare_rows(&mut tables, file, *kind)?;
    }
    tables.tell(&rt)
}

fn compare_rows(tables: &mut Tables, file: &str, kind: Kind) -> Result<()> {
    for row in &tables.rows(file)? {
        let mut found = Buffer::new(tables.alloc);
        put_found(&mut found, row, kind);
        tables.compare_told(file, row, &found, wanted_of(row, kind))?;
    }
    Ok(())
}

// What is found of a row.
fn put_found(found: &mut Buffer, row: &Row, kind: Kind) {
    match kind {
        Kind::Trees => put_tree(found, row.field(0)),
        Kind::Faults => put_fault(found, row.field(0)),
        Kind::Forms => put_form(found, row.field(0)),
        Kind::Nestings => put_faults_at_the_limit(found, row.number(0), row.field(0)),
        Kind::Levels => put_fault_of_levels(found, row.number(0), row.field(0)),
    }
}

// What a row wants to be found.
fn wanted_of(row: &Row, kind: Kind) -> &[u8] {
    match kind {
        Kind::Faults => row.head.as_slice(),
        Kind::Nestings => AT_THE_LIMIT,
        Kind::Trees | Kind::Forms | Kind::Levels => row.field(1),
    }
}
