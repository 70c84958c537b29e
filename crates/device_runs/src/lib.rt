//! What a run over the volume of a host shows of its device, to the end of the call. There is no code.
#![tactic(auto)]

mod laws;

pub use laws::runs_conclude;
