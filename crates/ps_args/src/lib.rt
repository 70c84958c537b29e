//! The words of the program: what they ask for, a run of texts, a new volume, or a text that tells of the program.
//! `docs/language.md` has the table of commands.
//!
//! The first word is the command and the second the volume. The words behind are read by `clap` (`simple`), and `words` makes the
//! command of what it read. `help` has the texts.
#![tactic(auto)]

pub mod help;
mod simple;
pub mod words;

pub use help::{FORMAT_HELP, HELP, RUN_HELP, VERSION};
pub use ps_scan;
pub use words::{ArgsFault, Command, RunWords, read_words};
