//! The commit: what is reached becomes stored, what was changed is stored anew, and all of it at once or nothing.
#![tactic(auto)]

pub mod commit;
pub mod decide;
pub mod reach;
pub mod store;

pub use commit_images;
pub use commit_walk;
pub use joint_ops;
