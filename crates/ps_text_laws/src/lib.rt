//! Laws of texts that are programs, over those of the grammar and of the typing rules: no code stands on them.
#![tactic(auto)]

mod laws;

pub use laws::{lets_of_a_text_are_items, program_of_a_text_is_well_typed};
