//! Scopes, procedures and units of code of area and vault, each operation said as the meaning says it: under a row of names they stand for a heap of
//! the meaning, whatever the residence of its objects.
#![tactic(auto)]

pub mod procedure;
pub mod scope;
pub mod unit;

pub use joint_ops;
pub use joint_ops::{obj_layout, proc_values, swizzle};
pub use scopes::{heap_ops, heap_places};
