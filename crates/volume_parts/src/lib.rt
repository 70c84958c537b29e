//! What volumes of all forms share: their note, why one isn't attached or made, and where the first pages lie.
#![tactic(auto)]

mod format_fault;
pub mod layout;
mod note;
mod open_fault;

pub use format_fault::FormatFault;
pub use note::Note;
pub use open_fault::OpenFault;
