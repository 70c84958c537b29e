//! What a run over a store shows, in the events that its program means. There is no code.
#![tactic(auto)]

mod laws;

pub use laws::{programs_show_their_events, runs_show_what_is_meant};
