//! The layout of a tree as a text, and the pieces that each form of it is laid out as.
#![tactic(auto)]

mod blocks;
mod declarations;
pub mod forms;
mod operators;
pub mod pending;
pub mod piece;
mod statements;

pub use ps_tree::ps_scan;
