//! How a run begins over a vault that stands for a heap. Definitions and laws; no code.
#![tactic(auto)]

mod laws;

pub use joint_held;
pub use laws::{
    a_run_begins_over_each_heap, a_run_begins_over_what_stands, each_heap_has_a_compact_one,
};
pub use space_meaning;
