//! What commands of the program return over a host and a shelf in memory, for its tests.
#![tactic(auto)]

mod answer;
mod command;
mod volume;

pub use answer::{Answer, Text};
pub use command::Command;
pub use memory_host;
pub use ps_command::{obj_layout, obj_store, ps_args};
pub use volume::{host_of, new_volume, volume_host};
