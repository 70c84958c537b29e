//! The instructions as bytes: each has one spelling, and no spelling is the prefix of another.
#![tactic(auto)]

pub mod decode;
pub mod encode;
pub mod laws;
pub mod table;

pub use ps_cases;
