//! What is known of the names of a typed program where a clause stands: which of them are kept in a scope, since a procedure
//! inside mentions them, and where each is found.
#![tactic(auto)]

pub mod placer;
pub mod survey;
pub mod table;
