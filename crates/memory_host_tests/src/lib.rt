//! Tests of the host and the shelf in memory.
#![tactic(auto)]

#[cfg(test)]
mod hosts;
#[cfg(test)]
mod shelves;
