//! The operators on strings, over the texts of the area.
#![tactic(auto)]

pub mod operators;
mod span;

pub use heap_texts;
pub use heap_texts::{obj_layout, swizzle, text_forms};
