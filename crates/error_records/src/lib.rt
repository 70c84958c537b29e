//! Error records: what a call on databases answers where it is refused, made beside what a run holds.
#![tactic(auto)]

pub mod records;
pub mod refusals;

pub use db_dir;
pub use joint_held;
pub use joint_ops;
