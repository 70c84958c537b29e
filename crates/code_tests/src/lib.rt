//! Tests of the instructions as bytes.
#![tactic(auto)]

#[cfg(test)]
mod instructions;
