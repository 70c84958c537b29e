//! What a commit needs before it writes: what is committed next, and the pages that name it.

ghost use Rattle.std.specs.Prelude.{◌≡◌, ◌+◌, ◌<◌, ◌≤◌, true, length};
ghost use Rattle.page_map.specs.Pages.{held_of};
ghost use Rattle.paged_volume.specs.Layout.{capacity_pages, map_pages_of};
ghost use Rattle.paged_volume.specs.Staging.{HasPages};
ghost use Rattle.paged_volume.specs.Standing.{IsFit, IsTable, logical_of, map_count};
ghost use Rattle.paged_volume.specs.Switching.{IsNext};
ghost use Rattle.paged_volume.specs.Planning.{depth_of, switched, wanted_pages, Follows, GetsPage, IsChosen, IsPlanned};
ghost use Rattle.paged_volume.specs.Committing.{HasRoom, IsTurned};

use crate::changing::{changed_pages, is_changed, trim};
use crate::committed::Committed;
use crate::layout::LEAST_INDEXED;
use crate::names::{logical_of, map_count};
use crate::pinning::outdate;
use crate::table::Table;
use page_map::PageMap;
use volume_parts::Note;

/// The depth that a commit writes.
pub fn depth_of(pages: u32) -> u32
    ensures { result ≡ depth_of pages }
{
    if pages < LEAST_INDEXED { 0 } else { 1 }
}

/// What is committed after a switch under so many used words and this directory.
pub fn next_committed(committed: Committed, used: u64, directory: u64) -> Committed
    ensures { result ≡ switched used directory committed }
{
    Committed {
        format: committed.format,
        pages: committed.pages,
        second: !committed.second,
        depth: depth_of(committed.pages),
        note: Note {
            commits: committed.note.commits.wrapping_add(1),
            used,
            directory,
        },
    }
}

/// How many pages it wants besides those that are staged: the map pages that change, and the index page.
pub fn wanted_pages(map: &PageMap, next: Committed) -> u32
    requires fit { IsFit next }
    requires logical { length map.now.committed ≡ capacity_pages next.pages }
    ensures { result ≡ wanted_pages map.now next }
{
    changed_pages(map, logical_of(next), map_count(next)) + next.depth
}

// A free page, which is taken, where one is wanted, and else this one.
fn page_for(map: &mut PageMap, wants: bool, page: u32) -> u32
    requires { wants ≡ true → held_of map.old.free < length map.old.free }
    ensures { GetsPage map.old map.new wants page result }
{
    if !wants {
        return page;
    }
    match map.take_free() {
        Some(number) => number,
        None => unreachable!(),
    }
}

// Chooses the pages of the index page and of the map pages that are committed next.
fn choose(map: &mut PageMap, named: &[u32], chosen: &mut [u32], next: Committed)
    requires fit { IsFit next }
    requires logical { length map.old.committed ≡ capacity_pages next.pages }
    requires names { length named.now ≡ 1 + map_pages_of (capacity_pages next.pages) }
    requires size { length chosen.old ≡ length named.now }
    requires room { held_of map.old.free + wanted_pages map.old next ≤ length map.old.free }
    ensures { IsChosen map.old map.new named.now chosen.new (logical_of next) next.depth (map_count next) }
{
    chosen.fill(0);
    chosen[0] = page_for(map, next.depth != 0, 0);
    for map_page in 0..map_count(next) {
        let changes = is_changed(map, logical_of(next), map_page);
        let place = 1 + map_page as usize;
        chosen[place] = page_for(map, changes, named[place]);
    }
}

/// Chooses the pages that name what is committed next, before any is written. What is staged past its logical pages is given up.
pub fn plan(table: &mut Table, next: Committed)
    requires table { IsTable table.old }
    requires follows { Follows table.old.committed next }
    requires has { HasPages table.old (logical_of next) }
    requires room { HasRoom table.old next }
    ensures { IsPlanned table.old next table.new }
{
    table.map.sound();
    choose(&mut table.map, &table.named, &mut table.next, next);
    trim(&mut table.map, logical_of(next));
}

/// What was to be committed next is committed: nothing is staged, and the pages that it doesn't name are free, but for those that pins hold.
pub fn turn(table: &mut Table, next: Committed)
    requires { IsNext table.old next }
    ensures { IsTurned table.old next table.new }
{
    table.map.settle(&table.next);
    table.named.copy_from_slice(&table.next);
    table.committed = next;
    outdate(&mut table.pins);
}
