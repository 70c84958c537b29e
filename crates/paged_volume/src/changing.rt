//! Which map pages a commit changes.

ghost use Rattle.std.specs.Prelude.{◌≡◌, ℕ, ◌+◌, ◌*◌, ◌<◌, ◌≤◌, ◌^◌, length, slice_index, if◌then◌else◌};
ghost use Rattle.paged_volume.specs.Changing.{next_number, differs, is_changed, changed_pages};

use crate::layout::NUMBERS;
use page_map::PageMap;

// The number that is committed next for a logical page.
fn next_number(map: &PageMap, logical: u32, page: u32) -> u32
    requires { page < length map.now.committed }
    ensures { result ≡ next_number map.now logical page }
{
    if page < logical { map.staged(page) } else { 0 }
}

// Whether it is another one than before.
fn differs(map: &PageMap, logical: u32, page: u32) -> bool
    requires { logical ≤ length map.now.committed }
    ensures { result ≡ differs map.now logical page }
{
    if page >= map.logical() {
        return false;
    }
    next_number(map, logical, page) != map.committed(page)
}

/// Whether a number of a map page changes.
pub fn is_changed(map: &PageMap, logical: u32, map_page: u32) -> bool
    requires logical { logical ≤ length map.now.committed }
    requires few { map_page < 1024 }
    ensures { result ≡ is_changed map.now logical map_page }
{
    for index in 0..NUMBERS {
        if differs(map, logical, NUMBERS * map_page + index) {
            return true;
        }
    }
    false
}

/// How many of the first map pages change.
pub fn changed_pages(map: &PageMap, logical: u32, count: u32) -> u32
    requires logical { logical ≤ length map.now.committed }
    requires few { count ≤ 1024 }
    ensures { result ≡ changed_pages map.now logical count }
{
    let mut changed = 0;
    for map_page in 0..count {
        changed += one_if(is_changed(map, logical, map_page));
    }
    changed
}

// One where it is so, else none.
fn one_if(so: bool) -> u32
    ensures { result ≡ (if so then 1 else 0) }
{
    if so { 1 } else { 0 }
}

/// Stages no page past so many logical ones.
pub fn trim(map: &mut PageMap, logical: u32)
    ensures lists { (map.new.committed ≡ map.old.committed) × (map.new.pins ≡ map.old.pins) × (map.new.free ≡ map.old.free) × (length map.new.staged ≡ length map.old.staged) }
    ensures staged { (page : ℕ) → slice_index map.new.staged page ≡ next_number map.old logical page }
{
    map.sound();
    for page in logical..map.logical() {
        map.replace(page, 0);
    }
}
