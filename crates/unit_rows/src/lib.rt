//! Units of stack code, as the rows of tables spell them: what the rows of a table say, and the assembler of their codes.
//!
//! The first word of a row's head says what it is:
//!
//! - `names`: its field has lines `NAME = CODE`, and each name stands for these instructions in the rows after it.
//! - `given`: what holds for the rows after it. Its field has a line for each constant: `text LINE` is a text, `unit` is a unit without code, and a line
//!   that begins with `# ` is a note.
//! - `run` and `calls`: a program, whose code is its first field. After it may stand, each in a field of its own, the bodies of its procedures:
//!   `body NUMS REFS NUM_PARAMS REF_PARAMS`, and in the lines after it a code. The bodies are the program's first constants, and those that are given
//!   stand after them. A body's own constants are those that are given.
//!
//! - `store`: the objects of a store for the rows after it, a line for each: its name, its kind and what it holds. A text is `NAME text LINE`; code is
//!   `NAME code NUMS REFS NUM_PARAMS REF_PARAMS : CONSTANTS : CODE`, and any other object `NAME KIND REFERENCES : NUMBERS`, of the kind `structure`,
//!   `vector`, `scope`, `closure`, `table` or `node`. A reference or a constant is `nil`, the name of an object, or the number of a PID. The home, which is
//!   0, isn't spelled. A line that begins with `#` is a note.
//! - `fetches`: a program as `run` has it, beside the store.
//!
//! A code is instructions, parted by `;` or the end of a line; a line that begins with `#` is a note. An instruction is its name and its operands, by a
//! table of the instructions: in each line a name, a code and the letters of the operands. An operand is a number or a label, and a statement `NAME:` is
//! the label of the place where it stands. `bytes COUNT VALUE` is so many bytes of this value.
//!
//! A text is a line as `text_form` spells it: `\n`, `\\`, `\x` with two digits in hex, and `\65534*c` for so many of a byte.
#![tactic(auto)]

mod assembler;
mod instruction;
mod label;
mod lexicon;
mod row_kind;
mod store;
mod table;
mod text_form;
mod unit;
mod words;

pub use assembler::assemble;
pub use lexicon::Lexicon;
pub use row_kind::RowKind;
pub use row_words;
pub use row_words::table_rows;
pub use store::{Store, store_of};
pub use table::Table;
pub use text_form::{bytes_of, put_line};
pub use unit::unit_of;
pub use words::{line_at, word_at};
