//! Tests of the output of a run, over a vault whose host lies in memory.
#![tactic(auto)]

#[cfg(test)]
mod faults;
#[cfg(test)]
mod pieces;
#[cfg(test)]
mod steps;
