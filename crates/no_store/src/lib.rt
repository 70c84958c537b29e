//! The vault of a machine whose objects all lie in the area: it holds no object, and its output goes to a host.
#![tactic(auto)]

mod laws;
mod vault;

pub use laws::{what_is_left_of_the_device, what_is_put_is_told};
pub use obj_layout;
pub use vault::NoStore;
