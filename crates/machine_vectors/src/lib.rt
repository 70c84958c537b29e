//! What the machine does with instructions over vectors, whatever the residence of the objects.
#![tactic(auto)]

pub mod bounds;
pub mod elements;
pub mod fills;
pub mod lists;
mod puts;
mod taken;

pub use machine_core;
pub use machine_core::{
    heap_ops, heap_places, heap_texts, joint_ops, obj_layout, objects, proc_values, swizzle,
    text_forms,
};
