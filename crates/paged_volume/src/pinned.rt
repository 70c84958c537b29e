use volume_parts::Note;

/// What a pin holds besides its list: what the root page said of that commit, and whether there was no other commit since.
#[derive(Clone, Copy, Debug, PartialEq, Eq)]
pub struct Pinned {
    pub note: Note,
    pub current: bool,
}
