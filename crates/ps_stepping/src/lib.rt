//! The stepping machine: what each instruction of a unit does, over the values of the meaning.
#![tactic(auto)]

mod laws;

pub use laws::{instructions_of_a_run, rest_of_a_run, step_is_unique, steps_have_their_effects};
pub use ps_code;
pub use ps_heap;
pub use ps_heap::text_forms;
pub use ps_meaning;
