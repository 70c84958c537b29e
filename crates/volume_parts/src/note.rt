/// What a root page says.
#[derive(Clone, Copy, Debug, PartialEq, Eq)]
pub struct Note {
    /// How often was committed; after 2^64 - 1 comes 0.
    pub commits: u64,
    /// The words that are used, word 0 included.
    pub used: u64,
    /// The PID of the directory, or 0.
    pub directory: u64,
}
