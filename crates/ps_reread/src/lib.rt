//! That what a tree is printed as is read as that tree again: laws alone, on which no program stands.
#![tactic(auto)]

pub mod laws;
