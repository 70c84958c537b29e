//! The check of a clause of the text, with all that stands in it: its typed tree, or its first fault.
//!
//! A `Checker` goes over the tree of a text once, in the order of the text, by the typing rules. What is made of the clauses that it
//! checked is `ps_checked`'s.
#![tactic(auto)]

mod applications;
mod cases;
mod chains;
pub mod checker;
mod declarations;
mod lists;
mod parts;
mod sequences;

pub use ps_steps::{ps_checked, ps_declared, ps_scope};
