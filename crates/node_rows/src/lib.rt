//! The nodes of tables' search trees, as what is seen of objects under their names.
#![tactic(auto)]

pub use avl_trees;
pub use heap_places;
