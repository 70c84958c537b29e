//! A made-up system, for tests of the calls that no real one fails at will.
#![tactic(auto)]

mod script;

pub use script::{Script, Step};
