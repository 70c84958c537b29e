//! Where the names of a typed program are kept: in a local of their frame, or in a scope, where a procedure inside mentions
//! them.
#![tactic(auto)]

mod placing;

pub use placing::place;
