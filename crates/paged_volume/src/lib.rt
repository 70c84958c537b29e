//! A volume of pages in a file. Each logical page stands in a page of its own, which a map names; a commit writes what changed to other pages,
//! and then selects the root page that names it.
#![tactic(auto)]

mod changing;
mod committed;
mod damage;
mod finding;
mod head;
mod laws;
pub mod layout;
mod making;
mod names;
mod paging;
mod pinned;
mod pinning;
mod placing;
mod planning;
mod root;
mod rooting;
mod syncing;
mod table;
mod volume;
mod writing;

pub use committed::Committed;
pub use laws::{a_new_volume_is_found, the_pages_suffice, what_volumes_hold};
pub use making::format;
pub use pinned::Pinned;
pub use table::Table;
pub use volume::{Refused, Volume, VolumeFault};
pub use volume_parts;
