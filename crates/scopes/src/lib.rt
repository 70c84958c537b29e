//! Scopes as objects of the area: the names that are kept for procedures, and the way out from one scope to another.
#![tactic(auto)]

pub mod laws;
pub mod making;
pub mod names;
pub mod way;

pub use closures;
pub use closures::{heap_places, heap_texts, swizzle};
pub use heap_ops;
