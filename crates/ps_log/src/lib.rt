//! A log of named entries, in which the last entry of a name is found by hash. What is entered last
//! hides what was entered under its name before, which comes into sight again when the last entries
//! are taken back.
#![tactic(auto)]

mod last;
pub mod log;

pub use log::{Log, Named};
