//! What the unit of a program runs to over a heap that a space stands for. There is no code.
#![tactic(auto)]

mod laws;

pub use laws::checked_units_run_as_meant;
