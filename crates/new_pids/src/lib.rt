//! New PIDs for what the walk of a commit has listed, and the one renaming of objects that they are together.
#![tactic(auto)]

pub mod giving;

pub use commit_walk;
pub use joint_ops;
