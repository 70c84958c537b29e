//! Lexemes as bytes: the gap before each, and its spelling.
#![tactic(auto)]

pub mod writer;
