//! What is in scope at a place of a program: what each name means, which fields there are, and the names of the library, which
//! are there before the program begins.
#![tactic(auto)]

mod declaration;
pub mod field;
mod library;
pub mod meaning;
pub mod scope;

pub use field::Field;
pub use meaning::{Class, Local, Meaning, Procedure};
pub use scope::{Block, Scope};
