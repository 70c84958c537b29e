//! Tests of the stack machine: units that are written by hand, good ones and hostile ones, in the tables of the folder `data/`. The program works out
//! each of their rows, and tells how many hold, and of each other one what was found.
//!
//! A table is a file of rows as `table_rows` reads them. Their codes, constants, bodies and lines are those of `unit_rows`. The first word of a row's head
//! says what it is:
//!
//! - `names`: names of instructions, for the rows after it.
//! - `given`: what holds for the rows after it, constants in its field and settings in the other words of its head.
//! - `run`: a program, which is run once. Its first field is its code. The second one is what the run returns, and in the next line all that it tells,
//!   where it tells anything. Where the setting `failing` is there, a line `calls N` stands between the two: how many calls the host had.
//! - `calls`: a program. Its first field is its code. The second one is what the run returns, and a line for what each call of the host tells. It is run
//!   once for each of these calls, with that call failing: it must come to `Output` after the half of that call's bytes, by no further call. And once
//!   more, with the call after the last one failing: it must come to what the row says, by exactly these calls.
//!
//! - `store`: the objects of a store, for the rows after it.
//! - `fetches`: a program beside the store, as `run` has it; between the two lines of its second field stands one with a letter for each call of the store,
//!   `d` where the run comes to `Device` with that call failing, and else `?`.
//!
//! A row of the kinds that are run may set settings in its head for itself. After its second field may stand, each in a field of its own, bodies, and
//! `input LINE`: the input of a run. Where there is none, it is empty.
//!
//! A setting is a word `NAME=NUMBER`: the turns that the program has are `turns` (0 where nothing is said), the words of the area `words` (8192), the
//! program's locals `nums` and `refs` (0), the call of the host that fails `failing`, from 0 on (none), the bytes that are left of its code `cut`
//! (all), and the object of the store that is its scope `scope`, from 1 on: with it the program is run beside the store (none).
//!
//! The file `instructions.rows` has the table of the instructions, as `docs/formats.md` lists them. In these tables each instruction that has a line has
//! line 7.
//!
//! A run comes to `Done`, `Trapped TRAP`, `OutOfTurns`, `Damaged`, `Full TOP WANTED SIZE`, `Device` (it failed) or `Output` (it failed). Of a
//! damaged object that has a PID it is `Damaged PID FOUND WANTED`.
#![tactic(auto)]

mod calls;
mod came;
mod outcome;
mod program;
mod rows;
mod setting;
mod settings;
mod stored;

use crate::rows::compare_rows;
use unit_rows::table_rows::Tables;
use unit_rows::table_rows::anyhow::{Context, Result};

/// The file of the instructions.
const INSTRUCTIONS: &str = "instructions.rows";

/// The files of the tables.
const TABLES: [&str; 17] = [
    "values.rows",
    "loops.rows",
    "writes.rows",
    "relations.rows",
    "objects.rows",
    "references.rows",
    "known.rows",
    "classes.rows",
    "inputs.rows",
    "tables.rows",
    "calls.rows",
    "full.rows",
    "hostile.rows",
    "hostile_bytes.rows",
    "procedures.rows",
    "kept_names.rows",
    "stored.rows",
];

fn main(rt: HostRuntime) -> Result<()> {
    let mut tables = Tables::new(&rt)?;
    compare_tables(&mut tables)?;
    tables.tell(&rt)
}

fn compare_tables(tables: &mut Tables) -> Result<()> {
    let rows = tables.rows(INSTRUCTIONS)?;
    let instructions = rows.first().context("no instructions")?;
    compare_files(tables, instructions.field(0))
}

// Compares the rows of each file, with the instructions of these lines.
fn compare_files(tables: &mut Tables, instructions: &[u8]) -> Result<()> {
    for file in TABLES {
        compare_rows(tables, instructions, file)?;
    }
    Ok(())
}
