//! Balanced search trees as definitions, what it means that nodes stand for one, and their laws. There is no code: the tables of the store are proved
//! against these.
#![tactic(auto)]

mod laws;

pub use laws::{
    heights_are_bounded, keys_stay_in_order, one_tree_stands, trees_are_finite_maps,
    trees_stay_balanced,
};
