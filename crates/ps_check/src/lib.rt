//! The check: the typed tree of a program from the tree of its text, or its first fault.
//!
//! `check::check` is the whole of it. What goes over the clauses of the text is `ps_checker`'s.
#![tactic(auto)]

pub mod check;
mod program;

pub use ps_checker::ps_declared;
