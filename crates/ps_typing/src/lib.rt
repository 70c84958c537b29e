//! The typing rules: which tree of the grammar is which typed program, and which fault comes first in one that is none.
//! They are definitions, in `specs/`, and laws of them.
#![tactic(auto)]

mod laws;

pub use laws::{program_excludes_fault, program_is_unique, same_is_equal};
