//! Texts as objects of the area; and why an operation on objects gave nothing.
#![tactic(auto)]

pub mod fault;
pub mod make;

pub use ps_heap::text_forms;
pub use swizzle;
pub use swizzle::obj_layout;
