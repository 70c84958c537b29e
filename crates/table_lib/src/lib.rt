//! Tables: finite maps from ints or strings to objects, as search trees of the area and a vault.
#![tactic(auto)]

mod bits;
pub mod enter;
pub mod laws;
pub mod lookup;
pub mod next;
pub mod table;
pub mod words;

pub use table_nodes;
