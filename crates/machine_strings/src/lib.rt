//! What the machine does with instructions over strings, and with lines of the input, whatever the residence of the objects.
#![tactic(auto)]

pub mod inputs;
pub mod texts;
