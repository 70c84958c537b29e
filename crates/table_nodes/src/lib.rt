//! The nodes of tables' search trees, as objects of the area that are fetched from a vault.
#![tactic(auto)]

pub mod enter;
pub mod follow;
pub mod keys;
pub mod make;
pub mod nodes;
pub mod opening;
pub mod placing;
pub mod ready;
pub mod remove;
pub mod search;
pub mod sides;
pub mod span;
mod turns;
pub mod wing;
pub mod wings;

pub use avl_trees;
pub use counted_steps;
pub use heap_places;
pub use node_rows;
