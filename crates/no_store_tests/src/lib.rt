//! Tests of the vault that holds no object, over a host in memory.
#![tactic(auto)]

#[cfg(test)]
mod objects;
#[cfg(test)]
mod telling;
