//! A store of objects in a volume: a vault whose space is the words of the volume's pages.
#![tactic(auto)]

mod kept;
mod lacking;
mod laws;
mod objects;
mod pinning;
mod reading;
mod settling;
mod source;
mod store;
mod view;
mod words;
mod writing;

pub use laws::{what_is_left_of_the_device, what_is_put_is_told};
pub use obj_layout;
pub use paged_volume;
pub use store::ObjStore;
pub use view::View;
