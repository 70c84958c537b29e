//! Slot counts: how many words each body of a typed program may need at once, and the first body that may need too many.
#![tactic(auto)]

mod complex;
mod sizes;

pub use complex::Complex;
pub use sizes::{Sizes, sizes_of};
