//! Tests of the program: the command from its words to its status, over hosts that fail and at its limits. The programs of the
//! crate `program_rows` go through it as well, and the tests of `program_volume_tests` look at its volume.
#![tactic(auto)]

#[cfg(test)]
mod command_tests;
#[cfg(test)]
mod inputs;
#[cfg(test)]
mod limits;
#[cfg(test)]
mod memory_tests;
