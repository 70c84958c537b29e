//! What each call of a vault adds to a run that commits. Laws; no code.
#![tactic(auto)]

pub use commit_moments;
pub use obj_layout;
