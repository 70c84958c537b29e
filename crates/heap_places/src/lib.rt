//! Values in the places of objects: reading one, writing one, and filling a new object; and the text that an object refers to first.
#![tactic(auto)]

pub mod filling;
pub mod places;
pub mod texts;
pub mod value;
pub mod words;

pub use heap_texts;
pub use heap_texts::{obj_layout, swizzle, text_forms};
