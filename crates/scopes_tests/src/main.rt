//! Scopes: made in a small area, and read, written and left in stores of forged ones. What is done and what it gives stands in the tables of the folder
//! `data/`. The program works out each of their rows, and tells how many hold, and of each other one what was found.
//!
//! A table is a file of rows as `table_rows` reads them. The head of a row says what it is about, and its fields are:
//!
//! - Where the scope comes from, which differs from table to table.
//! - What is done.
//! - What it gives: one of the answers below, or several lines of them.
//! - Where it is there, `area N`: the words of the area, which are 40 in a table of stores and 60 in `made.rows`.
//!
//! In the tables of stores the first field has the objects of the store from word 1 on, one after the other, each in a line: its words, or a name. A
//! row whose head is `names` has one field with lines `NAME = WORDS`: each name stands for these words in the rows after it. A word is a sum of parts
//! with `+` between. A part is a number, in decimal or after `0x` in hex, or `many`, which is 1 in the upper half of a word, or `N*many`, which is so
//! many times that, or `pid`, which is the word of a reference without the PID. So a scope with two references has the first word `4+2*many`. What is
//! done is one call with the scope of a PID, which is fetched first:
//!
//! - `kept PID NAME`: what it keeps under the name of this number. `set_kept PID NAME VALUE`: that is written.
//! - `out PID LEVELS`: the scope so many levels out from it.
//! - `parent PID`: its parent.
//!
//! In `made.rows` the first field is the text of a scope, and what is done is `outermost`, which makes a scope without a parent, or `inner`, which makes
//! one under an outermost scope of the same text. In `steps.rows` the first field is the text of an outermost scope too, and what is done with it stands
//! in lines, of which each gives one answer until one is refused. The area has 100 words:
//!
//! - `get NAME`: what it keeps under the name of this number. `set NAME VALUE`: that is written; of objects it is the text.
//!
//! A VALUE is `num N`, `true`, `false`, `nil` or `ref INDEX`, which is the object of this index in the area.
//!
//! The answers are these. All numbers are in decimal, but for those of `damaged` from 65536 on, which are in hex:
//!
//! - `value VALUE`: what is kept, or the parent.
//! - `place INDEX`: the scope that the way leads to, or that was made.
//! - `done`: it is written.
//! - `damaged AT FOUND WANTED`, `full TOP WANTED SIZE`, or `refused FAULT` by the store for another reason.
//! - `not called`: it is no PID, or the value denotes an object, so that no call was made.
//!
//! After the place of a scope that was made, and after the answers of the steps where none was refused, stands what is seen of the scope:
//! `header KIND BYTES PID CHAIN`, `refs REFERENCE..`, of which each is `nil`, the index of an object or `pid+PID`, `nums WORD..`, and `top INDEX`, the
//! first free word of the area. Where objects are noted as assigned then, the line `assigned INDEX..` stands last.
#![tactic(auto)]

mod ended;
mod forged;
mod made;
mod names;
mod scene;
mod seen;
mod step;
mod value;
mod world;

use row_words::anyhow::Result;
use row_words::table_rows::Tables;

/// The tables of stores: what scopes keep, what is written to them, and the way out of them.
const STORES: [&str; 3] = ["kept.rows", "put.rows", "ways.rows"];

fn main(rt: HostRuntime) -> Result<()> {
    let mut tables = Tables::new(&rt)?;
    for file in &STORES {
        forged::compare(&mut tables, file)?;
    }
    made::compare(&mut tables, "made.rows")?;
    names::compare(&mut tables, "steps.rows")?;
    tables.tell(&rt)
}
