//! What the check makes of clauses that were checked: of what type they have to be, and the clause of a form with its parts.
//!
//! Nothing here goes into a clause of the text: `ps_checker` does, and hands in what came of it.
#![tactic(auto)]

pub mod arms;
pub mod assigning;
pub mod chain;
pub mod double;
pub mod fits;
pub mod head;
pub mod items;
pub mod link;
pub mod literals;
pub mod loops;
pub mod single;
pub mod triple;
pub mod vectors;
pub mod wanted;

pub use ps_declared;
pub use ps_declared::ps_scope;
