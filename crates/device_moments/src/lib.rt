//! What is shown of a store is shown of its host's device. Laws; no code.
#![tactic(auto)]

pub use commit_moments;
pub use obj_store;
