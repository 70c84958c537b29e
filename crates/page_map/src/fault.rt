/// Why a map page was not read to its end.
#[derive(Clone, Copy, Debug, PartialEq, Eq)]
pub enum MapFault {
    /// The number at this index names a page below 4, or one that there is not, or one that is in use already, by a number before it too.
    BadNumber { index: u32, found: u32 },
}
