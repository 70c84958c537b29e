//! Tables of tests that stand in files: their rows, and the report of what the rows return.
//!
//! A file begins with a note of what it is for. Each row begins with a line `=== HEAD`, and after it stand its fields, one after the
//! other, with a line `---` between two. A field is the bytes of its lines without the end of the last one, so what ends with the end
//! of a line is written with an empty line after it.
#![tactic(auto)]

pub mod buffer;
pub mod report;
pub mod row;
pub mod tables;

pub use anyhow;
pub use buffer::Buffer;
pub use report::Report;
pub use row::{Row, rows_of};
pub use tables::Tables;
