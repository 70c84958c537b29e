//! The operations on tables as the meaning has them, over an area and a vault together.
#![tactic(auto)]

pub mod tables;

pub use joint_ops;
pub use table_lib;
