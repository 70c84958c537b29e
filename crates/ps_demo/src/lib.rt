//! The demo program: it enters a number of entries in a database, scans them, commits, and writes what it found.
#![tactic(auto)]

mod text;

pub use text::demo_text;
