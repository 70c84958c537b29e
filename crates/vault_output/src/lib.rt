//! The output of a run: a buffer that hands what is written on to a vault, in large pieces.
#![tactic(auto)]

mod laws;
mod output;

pub use laws::{
    two_sends_are_one, what_is_flushed_is_told, what_is_told_and_owed_is_due,
    what_is_told_is_a_front,
};
pub use obj_layout;
pub use output::{BUFFER_BYTES, Output};
