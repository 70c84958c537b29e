//! Each text that has types, of at most the bytes that are read, has one unit.
#![tactic(auto)]

pub mod laws;
