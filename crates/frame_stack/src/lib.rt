//! A stack of the words of bodies that call one another, of which the last one runs.
#![tactic(auto)]

mod fills;
mod stack;

pub use stack::FrameStack;
