use volume_parts::Note;

/// What is committed in a volume: its format, how many pages it has, which root page is selected, and what that page says. The depth is 1
/// where an index page names the map pages, else 0.
#[derive(Clone, Copy, Debug, PartialEq, Eq)]
pub struct Committed {
    pub format: u8,
    pub pages: u32,
    pub second: bool,
    pub depth: u32,
    pub note: Note,
}
