//! What a run holds after a key was entered into a table, or taken out, by what the calls on tables say. Definitions and laws; no code.
#![tactic(auto)]

mod laws;

pub use joint_held;
pub use joint_tables;
pub use laws::{answered_enters_are_held, entered_tables_are_held};
