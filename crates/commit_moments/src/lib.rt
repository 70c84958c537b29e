//! What is output and what a crash leaves at each moment of a run that commits, with one number of steps for both. Definitions and laws; no code.
#![tactic(auto)]

pub use ps_outside;
