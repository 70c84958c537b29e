//! Texts of a small area, and the operators on them, call by call.
#![tactic(auto)]

#[cfg(test)]
mod fixture;
#[cfg(test)]
mod making;
#[cfg(test)]
mod operators;
