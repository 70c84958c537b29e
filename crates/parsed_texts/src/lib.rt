//! The tree of a text: what its tokens are read as, or why it has none.
#![tactic(auto)]

mod fault;
mod tree;

pub use fault::TextFault;
pub use ps_base;
pub use ps_tree;
pub use tree::tree_of;
