//! Operations on objects of area and vault, each said as the meaning says it: under a row of names they stand for a heap of the meaning, whatever the
//! residence of its objects.
#![tactic(auto)]

pub mod code;
pub mod structures;
pub mod texts;
pub mod values;
pub mod vectors;

pub use heap_meaning::heap_places::value::Value;
pub use heap_meaning::heap_texts::fault::OpFault;
pub use heap_meaning::{
    heap_ops, heap_places, heap_texts, obj_layout, proc_values, swizzle, text_forms,
};
