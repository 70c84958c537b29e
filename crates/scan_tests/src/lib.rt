//! Tests of the scanner and of the symbols that the grammar reads.
#![tactic(auto)]

#[cfg(test)]
mod reading;
#[cfg(test)]
mod scanning;
#[cfg(test)]
mod symbols;
