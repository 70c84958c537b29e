//! What the objects of area and vault stand for: the objects of a heap of the meaning, under a pairing of their names with numbers.
#![tactic(auto)]

pub use heap_ops;
pub use heap_ops::heap_places;
pub use node_rows;
pub use proc_values;
pub use proc_values::{heap_texts, obj_layout, swizzle, text_forms};
