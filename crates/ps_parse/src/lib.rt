//! The grammar: the tree of a text from its tokens.
#![tactic(auto)]

mod laws;
mod parser;

pub use laws::{fault_is_unique, tree_excludes_fault, tree_is_unique};
pub use parser::parse;
pub use ps_reader::ps_scan;
