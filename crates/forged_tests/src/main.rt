//! Objects that a store gives and that no program of the language made: what each operation on them answers. They stand in the tables of the folder
//! `data/`. The program works out each of their rows, and tells how many hold, and of each other one what was found.
//!
//! A table is a file of rows as `table_rows` reads them. A row whose head is `names` has one field with lines `NAME = WORDS`: each name stands for
//! these words in the rows after it. The head of any other row says what is forged, and its fields are:
//!
//! - The objects of the store from word 1 on, one after the other, each in a line: its words, or a name. A word is a sum of parts with `+` between.
//!   A part is a number, in decimal or after `0x` in hex, or `many`, which is 1 in the upper half of a word, or `N*many`, which is so many times that,
//!   or `pid`, which is the word of a reference without the PID. `COUNT:WORD` is so many of a word. So a structure with one reference has the first
//!   word `2+many`, and a text of three bytes the third word `2+3*many`.
//! - The call: what is done with the object of a PID, which is fetched first. It is one of those below.
//! - What it answers: one of those below.
//! - Where it is there, `area N`: the words of the area, which are 200 where nothing is said.
//!
//! The calls are these. Where TEXT follows, it stands in the next line, and a VALUE is `num N`, `true`, `false` or `nil`:
//!
//! - `touch PID`: the object is fetched, and no more.
//! - `text PID`, TEXT: whether its bytes are those of the text.
//! - `class PID`, TEXT: whether it is a structure of the class with this text.
//! - `field PID NUMBER`, TEXT: its field of this number, by the class with this text. `set_field PID NUMBER VALUE`, TEXT: the field is written.
//! - `low PID`, `high PID`: its lower bound, and its upper bound.
//! - `element PID AT`: its element at this subscript. `set_element PID AT VALUE`: the element is written.
//! - `constant PID INDEX`: its constant of this number.
//! - `instruction PID AT`: its instruction at this offset in bytes.
//!
//! The answers are these. All numbers are in decimal, but for those of `damaged` from 65536 on, which are in hex:
//!
//! - `object KIND`: an object of this kind, which lies in the area with its PID, and without flags and chain; `is false` where it doesn't.
//! - `is true`, `is false`.
//! - `value VALUE`, where a value may also be `ref INDEX`: the object of this index in the area.
//! - `bound N`, `place INDEX` of a constant in the area, and `next AT`: the instruction ends before this offset.
//! - `done`: it is written.
//! - `trapped TRAP`, `damaged AT FOUND WANTED`, `full TOP WANTED SIZE`, or `refused FAULT` by the store for another reason.
//! - `no field`: the class names no such field, or the value is none of its form, so that no call was made.
//! - `no pid`: it is no PID, so that no call was made.
//!
//! Where objects are noted as assigned then, the line `assigned COUNT` stands after the answer.
#![tactic(auto)]

mod call;
mod ended;
mod scene;
mod table;
mod value;

use crate::table::compare_rows;
use row_words::anyhow::Result;
use row_words::table_rows::Tables;

/// The files of the tables: what is fetched, structures, vectors, code, and vectors that fill an area.
const TABLES: [&str; 5] = [
    "touches.rows",
    "fields.rows",
    "elements.rows",
    "codes.rows",
    "long_vectors.rows",
];

fn main(rt: HostRuntime) -> Result<()> {
    let mut tables = Tables::new(&rt)?;
    for file in &TABLES {
        compare_rows(&mut tables, file)?;
    }
    tables.tell(&rt)
}
