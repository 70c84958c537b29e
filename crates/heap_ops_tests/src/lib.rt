//! Structures and vectors of a small area, and what is read of them and written to them, call by call.
#![tactic(auto)]

#[cfg(test)]
mod calls;
#[cfg(test)]
mod fixture;
#[cfg(test)]
mod layouts;
#[cfg(test)]
mod making;
#[cfg(test)]
mod structures;
#[cfg(test)]
mod wide;
pub mod world;
