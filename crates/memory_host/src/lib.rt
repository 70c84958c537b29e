//! A host in memory, for tests: the whole disk model, told.
#![tactic(auto)]

pub mod memory_host;

pub use memory_host::{MemoryHost, disk_model};
