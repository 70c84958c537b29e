//! The outside of the system: the host, which is the device and takes what a program outputs, and the shelf, which gives
//! texts by name. Each is a trait, so that everything above is proved over any host and any shelf;
//! `FileHost` and `DirShelf` are the edge to the real system, `MemoryShelf` is whole in memory.
#![tactic(auto)]

pub mod device_file;
pub mod dir_shelf;
pub mod file_host;
pub mod host;
pub mod memory_shelf;
pub mod shelf;
pub mod tell;

pub use dir_shelf::DirShelf;
pub use file_host::FileHost;
pub use host::{Host, HostFailed};
pub use memory_shelf::MemoryShelf;
pub use shelf::{Shelf, ShelfFault};
