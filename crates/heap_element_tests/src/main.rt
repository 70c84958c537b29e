//! Vectors of a small area as they lie, and their elements at their edges: what is read, what is written, and what is refused. They stand in the
//! tables of the folder `data/`. The program works out each of their rows, and tells how many hold, and of each other one what was found.
//!
//! A table is a file of rows as `table_rows` reads them. The head of a row says what it is about, and its fields are:
//!
//! - What is done, a line each: the text of the vector's type, the vector, and the call on it if there is one. A VALUE is an int, `true`, `false`,
//!   `nil`, or `text`: the object with the type's text.
//! - What is found.
//!
//! The vectors are these:
//!
//! - `repeat LOW HIGH VALUE`: of these bounds, with this value at each subscript. No call follows.
//! - `list LOW VALUE VALUE ..`: from this lower bound on, with these values.
//!
//! The calls are `get AT` and `set AT VALUE` at a subscript. What is found is one of these, where all numbers but values and traps are in hex:
//!
//! - `refs REFERENCE ..`, and in the next line `nums WORD ..`: the vector as it lies, where no call failed. A REFERENCE is `nil`, `text`,
//!   `object INDEX` or `pid PID`. Where its header isn't that of a new vector, it stands in a line before.
//! - `value VALUE`, where a value may also be `object INDEX`.
//! - `trapped TRAP`, `damaged AT FOUND WANTED`, `full TOP WANTED SIZE`, or `refused FAULT` by the store for another reason.
//!
//! Where objects are noted as assigned then, a line `assigned OBJECT ..` stands after, with `vector` or the index for each.
#![tactic(auto)]

mod area;
mod found;
mod near;
mod told;
mod value;
mod vectors;

use crate::found::put_found;
use row_words::anyhow::Result;
use row_words::table_rows::{Buffer, Tables};

/// The files of the tables: vectors of one value and of lists, and what is read of elements, written to them, and refused.
const TABLES: [&str; 5] = [
    "repeated.rows",
    "listed.rows",
    "got.rows",
    "put.rows",
    "refused.rows",
];

fn main(rt: HostRuntime) -> Result<()> {
    let mut tables = Tables::new(&rt)?;
    for file in &TABLES {
        compare_rows(&mut tables, file)?;
    }
    tables.tell(&rt)
}

fn compare_rows(tables: &mut Tables, file: &str) -> Result<()> {
    for row in &tables.rows(file)? {
        let mut found = Buffer::new(tables.alloc);
        put_found(&mut found, row.field(0));
        tables.compare_told(file, row, &found, row.field(1))?;
    }
    Ok(())
}
