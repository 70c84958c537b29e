//! How many steps were taken, as a number that contracts see and that takes no bytes.
#![tactic(auto)]

pub mod steps;
