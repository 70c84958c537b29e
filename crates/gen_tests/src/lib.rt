//! Tests of the generator: texts, each with the instructions, the constants and the frames of its unit.
#![tactic(auto)]

#[cfg(test)]
mod buffer;
#[cfg(test)]
mod chains;
#[cfg(test)]
mod listing;
#[cfg(test)]
mod units;
