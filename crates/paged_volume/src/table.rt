use crate::committed::Committed;
use crate::pinned::Pinned;
use page_map::PageMap;

/// What is known of a volume's pages: what is committed, which page each logical page stands in, the pages that say so, and what pins
/// hold.
#[derive(Drop)]
pub struct Table {
    pub committed: Committed,
    /// Of each logical page the page that it stands in.
    pub map: PageMap,
    /// The number of the index page, and then those of the map pages; 0 for none.
    pub named: Vec<u32>,
    /// The same of what is committed next, while it is written.
    pub next: Vec<u32>,
    /// What each pin holds besides its list in the map, if it holds anything.
    pub pins: Vec<Option<Pinned>>,
}
