//! New names for objects: what stood for a value stands for it under the new names. An object that gets a PID is named by that from then on.
#![tactic(auto)]

pub use heap_meaning;
