//! Tables over a store and an area, call by call. What each call answers stands in the tables of the folder `data/`. The program works out each of
//! their rows, and tells how many hold, and of each other one what was found.
//!
//! A table is a file of rows as `table_rows` reads them. A row whose head is `names` has one field with lines `NAME = WORDS`: each name stands for
//! these words in the rows after it. The fields of any other row are:
//!
//! - The objects of the store from word 1 on, as `row_words` spells them.
//! - The calls, each in a line. They are those below, and end where one is refused by the store or the area.
//! - What they answer, each in a line.
//! - Where it is there, `area N`: the words of the area, which are 200 where nothing is said.
//!
//! The calls are these. A VALUE is the PID of an object, which is fetched, or `nil`; TEXT is the rest of the line, and a KEY an int:
//!
//! - `at PID`: the object of this PID is fetched, and the calls after it are on it; those before are on the object of PID 1.
//! - `enter.int KEY VALUE`, `enter.text VALUE TEXT`.
//! - `lookup.int KEY`, `lookup.text TEXT`.
//! - `next.int KEY`, `next.text TEXT`, `first.int`, `first.text`: the pair of the next key.
//! - `cardinality`.
//! - `height`: how high the tree is, where it is balanced and each node has its right height.
//! - `assigned`: how many objects are noted as assigned.
//! - `orders COUNT FIRST STEP TIMES`: the keys from 0 to COUNT - 1 are entered into the table in one order and taken out in another, so often. The
//!   area is reset before each, and the value of a key has the PID 9 and 5 for each key below it. The order in which they are entered has the number FIRST, and STEP more each time; the other one is that of
//!   the number of times. Each time the table is compared with a list after each call.
//! - `many COUNT FACTOR`: so many keys are entered with the value of PID 9, the product of FACTOR and a number each, and each is looked up.
//! - `fetches COUNT`: each key below COUNT is looked up over an empty area.
//! - `long`: two strings of 65,535 bytes that differ in the last one, and the string of their first 65,534, are entered and looked up.
//!
//! The answers are these:
//!
//! - `done`, `pid N` of a value, `no value`, `int KEY pid N`, `text TEXT pid N`, `no key`, `count N`, `height N`, `wrong height`,
//!   `assigned N`, `words N` that came at the most, `agree`, `differ at N` of the times, or `differ`.
//! - `trapped TRAP`, `damaged AT FOUND WANTED`, `full TOP WANTED SIZE`, or `refused FAULT` by the store for another reason.
//! - `no pid`: it is no PID, so that no call was made.
#![tactic(auto)]

mod answers;
mod call;
mod ended;
mod orders;
mod scene;
mod table;
mod trees;

use crate::table::compare_rows;
use row_words::anyhow::Result;
use row_words::table_rows::Tables;

/// The files of the tables: calls on tables, tables and nodes that a store gives and that no call made, and enters in many orders.
const TABLES: [&str; 3] = ["tables.rows", "forged.rows", "orders.rows"];

fn main(rt: HostRuntime) -> Result<()> {
    let mut tables = Tables::new(&rt)?;
    for file in &TABLES {
        compare_rows(&mut tables, file)?;
    }
    tables.tell(&rt)
}
