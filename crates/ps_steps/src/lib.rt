//! What is to be done for a clause of the text: what its form is, which of its parts are left to be checked, and what a clause without
//! parts comes to.
//!
//! Nothing here goes into a part: `ps_checker` does.
#![tactic(auto)]

pub mod leaf;
pub mod step;

pub use ps_checked;
pub use ps_checked::{ps_declared, ps_scope};
