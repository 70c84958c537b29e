//! The walk of a commit over the objects of an area: it lists what becomes stored, in order, and gives each object its home.
#![tactic(auto)]

pub mod homes;
mod nowhere;
pub mod walk;

pub use swizzle;
