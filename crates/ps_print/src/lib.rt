//! The printer: the text that a tree is printed as.
#![tactic(auto)]

mod clauses;
mod items;
mod lines;
pub mod print;
