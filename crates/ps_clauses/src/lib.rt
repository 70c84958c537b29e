//! Reads clauses and items by the grammar, each from its first symbol on.
//!
//! Each function reads those symbols that are one part of the grammar: from the place on, which
//! moves after them. `room` is how many clauses and types may still stand inside one another.
#![tactic(auto, using(ps_reader::proofs::Steps::steps))]

mod cases;
mod clauses;
pub mod items;
mod loops;
mod operators;
mod primaries;
mod writing;
