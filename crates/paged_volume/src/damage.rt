ghost use Rattle.std.specs.Prelude.{◌≡◌, ◌≤◌, None};
ghost use Rattle.paged_volume.specs.Found.{wants_equal, wants_between, wants_pages, wants_depth, bound_of};
ghost use Rattle.volume_parts.specs.declared.open_fault.OpenFault.TheVariants.{Damaged};

use crate::layout::LEAST_INDEXED;
use volume_parts::OpenFault;

/// A test that failed: the number at this place in the file isn't what was wanted, or isn't within it.
#[derive(Clone, Copy)]
pub struct Damage {
    pub at: u64,
    pub found: u64,
    pub wanted: u64,
}

impl Damage {
    /// As the answer of attaching.
    pub fn fault(self) -> OpenFault
        ensures { result ≡ Damaged self.at self.found self.wanted }
    {
        OpenFault::Damaged {
            at: self.at,
            found: self.found,
            wanted: self.wanted,
        }
    }
}

/// A number that has to be this one.
pub fn wants_equal(at: u64, found: u64, wanted: u64) -> Option<Damage>
    ensures { result ≡ wants_equal at found wanted }
{
    if found == wanted {
        None
    } else {
        Some(Damage { at, found, wanted })
    }
}

/// A number that has to be between two.
pub fn wants_between(at: u64, found: u64, low: u64, high: u64) -> Option<Damage>
    ensures { result ≡ wants_between at found low high }
{
    if found < low {
        Some(Damage {
            at,
            found,
            wanted: low,
        })
    } else if high < found {
        Some(Damage {
            at,
            found,
            wanted: high,
        })
    } else {
        None
    }
}

/// The pages that the file has to have.
pub fn wants_pages(present: u64, pages: u64) -> Option<Damage>
    ensures { result ≡ wants_pages present pages }
{
    if present < pages {
        Some(Damage {
            at: 8,
            found: present,
            wanted: pages,
        })
    } else {
        None
    }
}

/// The depth that a root page may have.
pub fn wants_depth(format: u8, pages: u32, at: u64, depth: u32) -> Option<Damage>
    ensures { result ≡ wants_depth format pages at depth }
{
    let depth = depth as u64;
    if pages < LEAST_INDEXED {
        wants_equal(at, depth, 0)
    } else if format == 1 {
        wants_between(at, depth, 0, 1)
    } else {
        wants_equal(at, depth, 1)
    }
}

/// The bound that a number of a page breaks which names no page that is left.
pub fn bound_of(pages: u32, number: u32) -> u32
    requires { 1 ≤ pages }
    ensures { result ≡ bound_of pages number }
{
    if number < 4 {
        4
    } else if number < pages {
        0
    } else {
        pages - 1
    }
}
