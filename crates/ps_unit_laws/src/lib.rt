//! Each typed body within the limits has one unit.
#![tactic(auto)]

pub mod laws;
