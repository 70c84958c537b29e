//! Which physical pages of a volume are in use: by the lists that are committed, staged and pinned, and by what else was taken.
#![tactic(auto)]

mod fault;
mod free_pages;
mod laws;
mod marked;
mod noted;
mod numbers;
mod page_list;
mod page_map;

pub use fault::MapFault;
pub use laws::{a_small_volume_holds, numbers_are_read_as_they_are_written};
pub use page_map::PageMap;
