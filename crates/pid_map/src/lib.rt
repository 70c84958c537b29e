//! A finite map from PIDs to places, whose chains run through the places themselves: the map takes memory for the heads of its chains alone.
#![tactic(auto)]

pub mod links;
pub mod map;

pub use links::{Links, Relinks};
pub use map::PidMap;
