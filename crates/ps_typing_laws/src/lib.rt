//! Laws of the typing rules that cost more to prove than the rules themselves: no code stands on them.
#![tactic(auto)]

mod laws;

pub use laws::{placing_keeps_slot_counts, slots_are_counted, typed_program_is_well_typed};
