//! The objects that a program works on, whatever their residence: an area with what was looked up of it, over a vault that objects are fetched from.
//! Each operation is said as the meaning says it.
#![tactic(auto)]

pub mod body;
pub mod class_rows;
mod classes;
mod known;
mod known_fields;
mod known_makes;
mod known_procedures;
mod known_vectors;
pub mod objects;
mod places;

pub use joint_ops;
pub use joint_ops::{OpFault, Value, obj_layout, swizzle};
pub use joint_tables;
pub use structure_rows;
