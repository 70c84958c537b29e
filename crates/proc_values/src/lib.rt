//! The code of procedures as objects of the area.
#![tactic(auto)]

pub mod laws;
pub mod load;
pub mod reading;
mod words;

pub use heap_texts;
pub use heap_texts::{obj_layout, swizzle, text_forms};
