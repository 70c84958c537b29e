//! What instructions over objects share: operands that are popped, text constants of the code, and what an operation gives, as the machine's next step.
#![tactic(auto)]

pub mod constants;
pub mod forms;
pub mod gives;
pub mod pops;

pub use machine_core;
pub use machine_core::joint_ops::{OpFault, Value};
pub use machine_core::{
    heap_ops, heap_places, heap_texts, joint_ops, obj_layout, objects, proc_values, swizzle,
    text_forms,
};
