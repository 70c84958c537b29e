//! Tests of the host and the shelf over files.
#![tactic(auto)]

#[cfg(test)]
mod folders;
#[cfg(test)]
mod hosts;
#[cfg(test)]
mod shelves;
