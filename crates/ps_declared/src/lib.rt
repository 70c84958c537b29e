//! Clauses that were checked, and the names that they use and declare.
//!
//! A `Clause` is a typed tree and its type, a `CheckFault` why there is none. What a name means, and what a declaration does to the names
//! in scope, is as the typing rules give it.
#![tactic(auto)]

pub mod classes;
pub mod clause;
pub mod declarators;
pub mod fault;
pub mod fields;
pub mod looks;
pub mod names;

pub use ps_scope;
