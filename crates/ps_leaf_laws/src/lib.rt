//! What is so of the leaves of every text's tree.
#![tactic(auto)]

mod laws;

pub use laws::leaves_of_a_text_fit;
