//! Laws of the units of a program's code, of the bytes that they count and of their constants: no code stands on them.
#![tactic(auto)]

mod laws;

pub use laws::{generated_units_have_constants, units_weigh_as_counted, units_weigh_their_words};
pub use ps_gen;
