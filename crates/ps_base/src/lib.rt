//! What the layers share: lines, traps, types, operators, the instructions and units of its code,
//! and the limits.
#![tactic(auto)]

pub mod bytes;
pub mod code_unit;
pub mod instr;
pub mod large_vectors;
pub mod laws;
pub mod line;
pub mod list;
pub mod operator;
pub mod trap;
pub mod ty;

/// The most bytes that a text of a program may have.
pub const LONGEST_TEXT: usize = 1_048_576;
