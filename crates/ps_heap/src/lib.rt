//! Heaps: values, operators and texts, objects and tables, databases and commits, as definitions. The operators on ints are in code too.
#![tactic(auto)]

pub mod operators;

pub use text_forms;
