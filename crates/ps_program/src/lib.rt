//! The typed program: the tree that the check makes of a text, and that its code is made from. It has every form of the
//! language, with a place in place of each name.
#![tactic(auto)]

pub mod body;
pub mod form;
pub mod parts;
pub mod place;
