//! What the machine does at a commit, whatever the residence of the objects.
#![tactic(auto)]

mod answers;
pub mod commits;
mod images;
mod ready;
mod roots;

pub use joint_commit;
pub use machine_core;
pub use machine_databases;
