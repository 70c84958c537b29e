//! The scanner: what cuts a source text into its tokens, each a slice of the text.
#![tactic(auto)]

mod class;
pub mod fault;
pub mod mark;
mod number;
mod piece;
mod quoted;
mod rows;
mod scanner;
pub mod token;
pub mod word;

pub use fault::ScanFault;
pub use ps_base::LONGEST_TEXT;
pub use scanner::{
    fault_is_unique, fault_stands_on_its_line, scan, tokens_are_slices, tokens_are_unique,
    tokens_exclude_fault,
};
pub use token::{Token, TokenKind, int_of, name_of, spell};
