//! Structures and vectors of the area: what the language's operators on them answer, and what they change.
#![tactic(auto)]

pub mod layouts;
pub mod shape;
pub mod structures;
pub mod vectors;

pub use heap_places;
pub use heap_places::heap_texts::fault::OpFault;
pub use heap_places::heap_texts::make::make_text;
pub use heap_places::value::Value;
pub use heap_places::{heap_texts, swizzle, text_forms};
