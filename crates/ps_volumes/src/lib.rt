//! Volumes as commands meet them: one is made, or attached, and where it can't be, there is a report of why.
#![tactic(auto)]

pub mod attaching;
pub mod making;

pub use attaching::{Unattached, attached};
pub use making::make_volume;
pub use obj_store;
pub use ps_reports;
pub use volume_next;
