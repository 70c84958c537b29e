//! Databases by their names: the directory of a volume, which database is created or opened, and why not.
#![tactic(auto)]

pub mod admit;
pub mod create;
pub mod entry;
pub mod fault;
pub mod find;
pub mod load;
pub mod shape;

pub use joint_ops;
