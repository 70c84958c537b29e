//! Closures as objects of the area: the code of a procedure and the scope that it was made in.
#![tactic(auto)]

pub mod closure;
pub mod laws;
pub mod shape;

pub use heap_places;
pub use heap_places::{heap_texts, obj_layout, swizzle, text_forms};
