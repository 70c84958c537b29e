//! The law that what fits the typing rules runs: no code stands on it.
#![tactic(auto)]

mod laws;

pub use laws::typed_program_runs;
