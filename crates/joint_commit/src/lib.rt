//! The commit, beside that of the meaning: what it leaves on the vault stands for the heap that the meaning saves.
#![tactic(auto)]

pub mod commit;

pub use joint_held;
pub use space_meaning;
