//! The statuses of the program, and the reports of what ends a command but for the ends of a program: each has a line, which is written by the host, and
//! a status. `docs/language.md` has the table.
#![tactic(auto)]

pub mod report;
pub mod status;

pub use report::{Report, Stage};
pub use status::Status;
