//! Directories that a store gives, and databases that are found, created and opened in them. They stand in the tables of the folder `data/`. The program works out
//! each of their rows, and tells how many hold, and of each other one what was found.
//!
//! A table is a file of rows as `table_rows` reads them. A row whose head is `names` has one field with lines `NAME = WORDS`: each name stands for these words in the
//! rows after it. The head of any other row says what is done, and its fields are:
//!
//! - The objects of the store from word 1 on, one after the other, each in a line: its words, or a name, as `row_words` reads them.
//! - The calls, one a line. The first is `at PID`: the PID of the directory, 0 for none.
//! - What they answer, one a line.
//! - Where it is there, `area N`: the words of the area, which are 400 where nothing is said.
//!
//! The calls are these. A TEXT is `-` for the empty one, `N*LETTER` for so many of a letter, or the bytes that it is:
//!
//! - `load`: the directory is fetched, and the calls after it are made on it. Before it there is none.
//! - `find TEXT`: by a name. `create TEXT TEXT`: by a name and a password, with a new table as the root. `open TEXT TEXT TEXT`: by a name, a password and a mode.
//! - `many N`: so many databases are created whose names are those of the numbers from 1 on.
//! - `fail N`: the device calls of the store fail from this number on, counted from 0.
//! - `touched`: how many device calls the store has had.
//!
//! The answers are these. All numbers are in decimal, but for those of `damaged` from 65536 on, which are in hex:
//!
//! - `databases N`: so many does the directory name; 0 where there is none.
//! - `number N`, or `none`.
//! - `made N`: the number of the new database, if the new directory names so many. `root N PID read`, `root N PID write`: the number and the root's PID, 0 for none, of the
//!   database that was opened.
//! - `fault FAULT`.
//! - `damaged AT FOUND WANTED`, `full TOP WANTED SIZE`, or `refused FAULT` by the store for another reason; then the store is not alive, or the calls after it find it so.
//! - `dead`: the store isn't alive, so that no call was made.
//! - `done` of `fail`, and `calls N` of `touched`.
#![tactic(auto)]

mod answers;
mod call;
mod scene;
mod table;

use crate::table::compare_rows;
use row_words::anyhow::Result;
use row_words::table_rows::Tables;

/// The files of the tables: what is answered of directories in order, and forged directories.
const TABLES: [&str; 2] = ["databases.rows", "forged.rows"];

fn main(rt: HostRuntime) -> Result<()> {
    let mut tables = Tables::new(&rt)?;
    for file in &TABLES {
        compare_rows(&mut tables, file)?;
    }
    tables.tell(&rt)
}
