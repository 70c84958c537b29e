//! What is reached along references: the least set, and a walk that computes it. There is no code: commits are proved against these.
#![tactic(auto)]

mod laws;

pub use laws::{the_first_source_is_found, walks_find_the_least_set};
