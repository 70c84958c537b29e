//! Vaults in memory, for tests: one that tells what it holds, and one that tells nothing.
#![tactic(auto)]

pub mod memory;
mod objects;
pub mod silent;

pub use obj_layout;
