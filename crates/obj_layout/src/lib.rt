//! How an object lies in words: its four header words, its references and its numbers, as
//! `docs/formats.md` has them under "Objects".
#![tactic(auto)]

pub mod header;
pub mod kind;
mod laws;
pub mod reference;
pub mod vault;

pub use laws::{header_has_one_contents, header_has_one_spelling, words_are_cut_once};
