//! What the machine does with instructions over structures, whatever the residence of the objects.
#![tactic(auto)]

pub mod fields;
mod laying;
pub mod makes;
pub mod structures;
mod traps;
