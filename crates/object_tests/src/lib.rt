//! Tests of the area that objects lie in, and of how they are laid out.
#![tactic(auto)]

#[cfg(test)]
mod area;
#[cfg(test)]
mod layout;
