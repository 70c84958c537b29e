//! Objects of the area by their index, seen together with a vault as one finite map of objects.
#![tactic(auto)]

pub mod fault;
mod fetched;
mod headers;
pub mod swizzle;
mod texts;

pub use obj_layout;
pub use pid_map;
