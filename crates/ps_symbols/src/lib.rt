//! Symbols: the tokens of a text as the grammar reads them, and what each kind of them stands for.
#![tactic(auto)]

pub mod kind;
pub mod newline;
pub mod symbol;

pub use ps_scan;
