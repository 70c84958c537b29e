//! Where the parts of a volume lie. `docs/formats.md` has it byte by byte.

ghost use Rattle.std.specs.Prelude.{◌≡◌, ◌+◌, ◌*◌, ◌<◌, ◌≤◌, ◌^◌};
ghost use Rattle.paged_volume.specs.Layout.{most_pages_of, capacity_pages, capacity_of, map_pages_of};

pub use volume_parts::layout::{
    LEAST_BYTES, LEAST_PAGES, MAGIC, PAGE_BYTES, logical_pages, root_at,
};

/// The most pages of a volume of format 1.
pub const MOST_PAGES_BEFORE: u32 = 131_072;

/// The most pages of a volume.
pub const MOST_PAGES: u32 = 1_048_576;

/// A volume of fewer pages has no index page.
pub const LEAST_INDEXED: u32 = 88;

/// The numbers of pages that a map page has, and the index page.
pub const NUMBERS: u32 = 1024;

/// The most pages of a volume of this format, 1 or 2.
pub fn most_pages_of(format: u8) -> u32
    ensures { result ≡ most_pages_of format }
{
    if format == 1 {
        MOST_PAGES_BEFORE
    } else {
        MOST_PAGES
    }
}

/// How many logical pages there can be.
#[tactic(auto, unfolding(crate::specs::Layout::capacity_pages))]
pub fn capacity_pages(pages: u32) -> u32
    requires { (32 ≤ pages) × (pages ≤ 1048576) }
    ensures { result ≡ capacity_pages pages }
{
    (pages - 4) * 10 / 21
}

/// How many words can be used.
pub fn capacity(pages: u32) -> u64
    requires { (32 ≤ pages) × (pages ≤ 1048576) }
    ensures { result ≡ capacity_of pages }
{
    512 * capacity_pages(pages) as u64
}

/// How many map pages so many logical pages take.
pub fn map_pages(logical: u32) -> u32
    requires { logical + 1023 < 2 ^ 32 }
    ensures { result ≡ map_pages_of logical }
{
    (logical + (NUMBERS - 1)) / NUMBERS
}

/// Where a page begins.
pub fn page_at(number: u32) -> u64
    ensures { result ≡ 4096 * number }
{
    PAGE_BYTES as u64 * number as u64
}
