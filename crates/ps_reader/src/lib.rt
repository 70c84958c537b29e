//! Reads the symbols of a text one after the other, and those parts of the grammar that hold no
//! clause: types, parameters and what is one token.
#![tactic(auto)]

pub mod reader;

pub use ps_scan;
