//! Tests of `ps_demo`: the front end of this repository takes the texts of the demo program.
#![tactic(auto)]

#[cfg(test)]
mod texts;
