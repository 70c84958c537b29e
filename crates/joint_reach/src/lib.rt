//! A commit in code decides, reaches and gives homes as the meaning's does. Laws; no code.
#![tactic(auto)]

mod laws;

pub use joint_held;
pub use laws::{
    a_commit_decides_as_is_meant, a_commit_gives_homes_as_is_meant,
    a_commit_reaches_nodes_with_their_tables, a_commit_reaches_what_is_meant,
};
