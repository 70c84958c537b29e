//! What programs mean, as definitions: evaluation, and the events and the end of a run.
#![tactic(auto)]

pub use text_forms;
