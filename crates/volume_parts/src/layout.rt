//! Where the parts of a volume lie. `docs/formats.md` has it byte by byte.

ghost use Rattle.std.specs.Prelude.{◌≡◌, ◌+◌, ◌<◌, ◌^◌};
ghost use Rattle.volume_parts.specs.Layout.{root_at, pages_of_words};

/// The bytes of a page.
pub const PAGE_BYTES: usize = 4096;

/// A file with fewer bytes is no volume.
pub const LEAST_BYTES: u64 = 16_384;

/// The fewest pages of a volume.
pub const LEAST_PAGES: u32 = 32;

/// `PSVOL1`, as the number that its six bytes spell, the low one first.
pub const MAGIC: u64 = 54_203_818_333_008;

/// Where a root page begins.
pub fn root_at(second: bool) -> u64
    ensures { result ≡ root_at second }
{
    if second { 12_288 } else { 8192 }
}

/// How many pages so many words take.
pub fn logical_pages(words: u64) -> u64
    requires { words + 511 < 2 ^ 64 }
    ensures { result ≡ pages_of_words words }
{
    (words + 511) / 512
}
