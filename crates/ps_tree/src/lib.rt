//! The tree that a text is read as, the making of each of its forms, and the fault of a text that
//! has none.
#![tactic(auto)]

mod boxes;
pub mod build;
pub mod fault;
pub mod rough;

pub use ps_symbols;
pub use ps_symbols::ps_scan;
