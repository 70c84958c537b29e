//! The code of a typed program: the unit of each body.
//!
//! `generate` is the whole of it. It goes over the tree once, and puts the instructions of each clause after those before it.
#![tactic(auto)]

mod begun;
mod cases;
pub mod generate;
mod jumps;
mod kept;
mod literals;
mod operands;
mod scans;
mod scopes;
mod tree;

pub use ps_emitter::ps_code;
