//! The pieces of types, and of parameters and fields, in the text that a tree is printed as (`docs/language.md`).
//!
//! Each function puts its pieces before those that are pending, as `ps_layout` has them. Its only fault is want of memory.
#![tactic(auto)]

pub mod types;

pub use ps_layout;
