//! What is so of the leaves and the classes of every typed program of a text.
#![tactic(auto)]

mod laws;

pub use laws::{bodies_take_and_give_values, typed_programs_fit};
