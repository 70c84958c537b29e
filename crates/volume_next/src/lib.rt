//! Volumes of an older form are moved into the last one.
#![tactic(auto)]

mod moving;

pub use moving::migrate;
pub use paged_volume;
