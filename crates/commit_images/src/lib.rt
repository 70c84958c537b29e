//! The images of objects of an area, stored by a commit: those of new objects behind what a vault holds, and those of changed ones in place of their words.
#![tactic(auto)]

pub mod append;
pub mod image;
pub mod overwrite;
pub mod save;

pub use commit_walk;
pub use swizzle;
