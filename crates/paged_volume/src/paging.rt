//! The pages that a switch makes: the index page and the root page.

ghost use Rattle.std.specs.Prelude.{◌≡◌, ℕ, ◌+◌, ◌*◌, ◌<◌, ◌≤◌, ◌^◌, List, length};
ghost use Rattle.byteorder.specs.Endian.{little_bytes};
ghost use Rattle.ps_port.specs.Disk.{written};
ghost use Rattle.volume_parts.specs.Layout.{number_at};
ghost use Rattle.paged_volume.specs.Standing.{IsFit, maps_of};
ghost use Rattle.paged_volume.specs.Switching.{IsRootPage};

use crate::committed::Committed;
use crate::names::logical_of;
use byteorder::{ByteOrder, LittleEndian};

// Writes a number of four bytes at a place.
fn put_u32(page: &mut [u8], at: usize, number: u32)
    requires { at + 4 ≤ length page.old }
    ensures written { page.new ≡ written at (little_bytes 4 number) page.old }
    ensures size { length page.new ≡ length page.old }
{
    LittleEndian::write_u32(&mut page[at..], number);
}

// Writes a number of eight bytes at a place.
fn put_u64(page: &mut [u8], at: usize, number: u64)
    requires { at + 8 ≤ length page.old }
    ensures written { page.new ≡ written at (little_bytes 8 number) page.old }
    ensures size { length page.new ≡ length page.old }
{
    LittleEndian::write_u64(&mut page[at..], number);
}

/// Writes the numbers of so many map pages into an index page.
pub fn fill_index(named: &[u32], count: u32, page: &mut [u8])
    requires count { 1 + count ≤ length named.now }
    requires few { count ≤ 1024 }
    requires size { length page.old ≡ 4096 }
    ensures size { length page.new ≡ 4096 }
    ensures numbers { (map_page : ℕ) → map_page < count → number_at (4 * map_page) 4 page.new ≡ maps_of named.now map_page }
{
    for map_page in 0..count {
        put_u32(page, 4 * map_page as usize, named[1 + map_page as usize]);
    }
}

/// Writes the numbers of a root page, which names this page.
pub fn fill_root(next: Committed, first: u32, page: &mut [u8])
    requires fit { IsFit next }
    requires commits { next.note.commits < 2 ^ 64 }
    requires size { length page.old ≡ 4096 }
    ensures { IsRootPage next first page.new }
{
    let logical = logical_of(next);
    put_u64(page, 0, next.note.commits);
    put_u64(page, 8, next.note.used);
    put_u64(page, 16, next.note.directory);
    put_u32(page, 24, logical);
    put_u32(page, 28, first);
    put_u32(page, 4092, next.depth);
}
