//! What is so of what is counted. There is no code.
#![tactic(auto)]

mod laws;

pub use laws::heavier_code_counts_more;
