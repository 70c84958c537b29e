//! Runs of units over an area and a vault, with databases and commits: what is pending goes out before a commit, and at each moment what a crash leaves is what
//! it left when the run began, or the heap that was committed last, or the one that is being committed.
#![tactic(auto)]

mod advance;
mod advanced;
mod calls;
mod databases;
mod plain;
pub mod run;

pub use commit_moments;
pub use machine_commits;
pub use machine_core;
pub use machine_run;
