//! What the machine does with instructions over scopes and procedures, whatever the residence of the objects.
#![tactic(auto)]

pub mod blocks;
pub mod calls;
mod faults;
pub mod names;
pub mod procedures;

pub use machine_core;
pub use machine_core::{
    frame_stack, heap_ops, heap_places, heap_texts, joint_ops, obj_layout, objects, proc_values,
    ps_code, swizzle, text_forms,
};
