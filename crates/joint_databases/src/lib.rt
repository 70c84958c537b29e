//! Databases beside what a run holds: its directory is known, and databases are created and opened.
#![tactic(auto)]

pub mod calls;

pub use joint_held;
