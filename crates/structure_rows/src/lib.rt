//! Structures made at once of the two rows of their fields: the numbers, and the references.
#![tactic(auto)]

pub mod marks;
pub mod rows;

pub use heap_places;
pub use heap_places::{swizzle, text_forms};
