//! Volumes that are full, since a pin holds an older list; and what pins hold.

ghost use Rattle.std.specs.Prelude.{◌≡◌, ◌≤◌, length, IfSome, IsSome, OnOk};
ghost use Rattle.memory_host.specs.Memory.{outside_of};
ghost use Rattle.paged_volume.specs.Standing.{IsAlive};
ghost use Rattle.paged_volume.specs.Pinning.{pin_of};

use crate::files::{FIRST, file_of};
use crate::volumes::{commit, first_byte, host_of, put, put_behind, put_if_free, switch_if_room};
use memory_host::MemoryHost;
use paged_volume::layout::capacity_pages;
use paged_volume::{Volume, VolumeFault, format};
use std::alloc::Global;

/// A volume that becomes full: how many pages it has, how many of them can be logical ones, and how many name these; how many are held once all were
/// committed, how many once all were committed again under a pin, and how many are free then.
#[derive(Clone, Copy)]
struct Row {
    pages: u32,
    logical: u32,
    maps: u32,
    committed: u32,
    pinned: u32,
    free: u32,
}

const ROWS: [Row; 3] = [
    Row {
        pages: 32,
        logical: 13,
        maps: 1,
        committed: 18,
        pinned: 31,
        free: 1,
    },
    Row {
        pages: 64,
        logical: 28,
        maps: 1,
        committed: 33,
        pinned: 61,
        free: 3,
    },
    Row {
        pages: 88,
        logical: 40,
        maps: 2,
        committed: 46,
        pinned: 86,
        free: 2,
    },
];

/// A volume of a host, with two pins.
fn pinned_volume(alloc: Global, host: MemoryHost) -> Option<Volume<MemoryHost>>
    ensures { IfSome result (λ volume. IsAlive volume.live volume.table (outside_of volume.host) × (length volume.table.pins.items ≡ 2)) }
{
    let Ok(volume) = Volume::attach(alloc, host) else {
        return None;
    };
    let mut volume = volume;
    match volume.reserve_pins(alloc, 2) {
        Ok(()) => Some(volume),
        Err(_) => None,
    }
}

/// A new volume of so many pages, with two pins.
fn new_volume(alloc: Global, pages: u32) -> Option<Volume<MemoryHost>>
    requires { (32 ≤ pages) × (pages ≤ 1048576) }
    ensures { IfSome result (λ volume. IsAlive volume.live volume.table (outside_of volume.host) × (length volume.table.pins.items ≡ 2)) }
{
    let Ok(host) = host_of(alloc, b"", u64::MAX) else {
        return None;
    };
    let mut host = host;
    match format(&mut host, pages) {
        Ok(()) => pinned_volume(alloc, host),
        Err(_) => None,
    }
}

/// Commits again what is committed, with what is staged of it.
fn commit_again(volume: &mut Volume<MemoryHost>) -> Result<Option<VolumeFault>, VolumeFault>
    requires { IsAlive volume.old.live volume.old.table (outside_of volume.old.host) }
    ensures alive { OnOk result (IsAlive volume.new.live volume.new.table (outside_of volume.new.host)) }
    ensures pins { OnOk result (length volume.new.table.pins.items ≡ length volume.old.table.pins.items) }
{
    volume.sound();
    let used = volume.note().used;
    switch_if_room(volume, used)
}

/// Puts pages that were free: the first ones, so many. Answers whether there was a page for each.
fn put_all(volume: &mut Volume<MemoryHost>, count: u32) -> Result<bool, VolumeFault>
    requires { IsAlive volume.old.live volume.old.table (outside_of volume.old.host) }
    ensures alive { OnOk result (IsAlive volume.new.live volume.new.table (outside_of volume.new.host)) }
    ensures pins { OnOk result (length volume.new.table.pins.items ≡ length volume.old.table.pins.items) }
{
    let mut are_put = true;
    for page in 0..count {
        are_put &= put_if_free(volume, page, 3)?.is_none();
    }
    Ok(are_put)
}

/// Once it is full: a page isn't put, and nothing is committed, with these numbers. What was staged stays so, and is committed once the pin is given up.
fn is_full(volume: &mut Volume<MemoryHost>, row: Row) -> Result<bool, VolumeFault>
    requires alive { IsAlive volume.old.live volume.old.table (outside_of volume.old.host) }
    requires pins { length volume.old.table.pins.items ≡ 2 }
{
    let Row { pages, maps, .. } = row;
    let put = put_if_free(volume, row.free, 3)?;
    let switched = commit_again(volume)?;
    let note = volume.note();
    let staged = first_byte(volume, 0)?;
    volume.unpin(0);
    let again = commit_again(volume)?;
    let held = volume.held();
    let first = first_byte(volume, 0)?;
    let last = first_byte(volume, row.free)?;
    Ok(
        put == Some(VolumeFault::Full {
            held: pages,
            wanted: 1,
            pages,
        }) && switched
            == Some(VolumeFault::Full {
                held: pages,
                wanted: maps,
                pages,
            })
            && note.commits == 2
            && staged == 3
            && again == None
            && held == row.committed
            && first == 3
            && last == 2,
    )
}

/// All pages are committed, twice, the first time under a pin; and the free ones are put.
fn becomes_full(volume: &mut Volume<MemoryHost>, row: Row) -> Result<bool, VolumeFault>
    requires alive { IsAlive volume.old.live volume.old.table (outside_of volume.old.host) }
    requires pins { length volume.old.table.pins.items ≡ 2 }
{
    commit(volume, row.logical, 1)?;
    let committed = volume.held();
    volume.pin(0);
    commit(volume, row.logical, 2)?;
    let pinned = volume.held();
    let are_put = put_all(volume, row.free)?;
    let full = volume.held();
    let is = is_full(volume, row)?;
    Ok(is && committed == row.committed && pinned == row.pinned && are_put && full == row.pages)
}

// A volume becomes full.
fn is_row(alloc: Global, row: Row) -> bool {
    if row.pages < 32 || row.pages > 1_048_576 {
        return false;
    }
    match new_volume(alloc, row.pages) {
        Some(volume) => {
            let mut volume = volume;
            becomes_full(&mut volume, row) == Ok(true)
        }
        None => false,
    }
}

#[test]
fn volumes_become_full(rt: HostRuntime) {
    for row in ROWS {
        assert!(rt; is_row(rt.alloc(), row));
    }
}

// A volume of format 1 becomes full as one of format 2 does: the first commit gives it an index page.
fn is_first_full(alloc: Global, row: Row) -> bool {
    let Ok(file) = file_of(alloc, 360_448, &FIRST) else {
        return false;
    };
    let Ok(host) = host_of(alloc, &file, u64::MAX) else {
        return false;
    };
    match pinned_volume(alloc, host) {
        Some(volume) => {
            let mut volume = volume;
            becomes_full(&mut volume, row) == Ok(true)
        }
        None => false,
    }
}

#[test]
fn a_volume_of_format_1_becomes_full(rt: HostRuntime) {
    assert!(rt; is_first_full(rt.alloc(), ROWS[2]));
}

/// A volume of 32 pages with two pins, in which one page more is committed than there is room for, and then one fewer.
fn gives_up(volume: &mut Volume<MemoryHost>) -> Result<bool, VolumeFault>
    requires alive { IsAlive volume.old.live volume.old.table (outside_of volume.old.host) }
    requires pins { length volume.old.table.pins.items ≡ 2 }
{
    commit(volume, 13, 1)?;
    volume.pin(0);
    commit(volume, 12, 2)?;
    volume.pin(1);
    put(volume, 0, 3)?;
    let one = commit_again(volume)?;
    let page = put_behind(volume, 4)?;
    let full = switch_if_room(volume, 512 * (page as u64 + 1))?;
    let staged = first_byte(volume, 12)?;
    let less = commit_again(volume)?;
    let first = first_byte(volume, 0)?;
    let second = first_byte(volume, 1)?;
    let gone = first_byte(volume, 12)?;
    Ok(
        one == None
            && full
                == Some(VolumeFault::Full {
                    held: 32,
                    wanted: 1,
                    pages: 32,
                })
            && staged == 4
            && less == None
            && first == 3
            && second == 2
            && gone == 0,
    )
}

#[test]
fn a_switch_of_less_has_room(rt: HostRuntime) {
    let is = match new_volume(rt.alloc(), 32) {
        Some(volume) => {
            let mut volume = volume;
            gives_up(&mut volume) == Ok(true)
        }
        None => false,
    };
    assert!(rt; is);
}

/// The first byte of a page as the first pin holds it.
fn pinned_byte(volume: &mut Volume<MemoryHost>, page: u32) -> Result<u8, VolumeFault>
    requires alive { IsAlive volume.old.live volume.old.table (outside_of volume.old.host) }
    requires held { IsSome (pin_of volume.old.table 0) }
    ensures alive { OnOk result (IsAlive volume.new.live volume.new.table (outside_of volume.new.host)) }
    ensures same { volume.new.table ≡ volume.old.table }
{
    if page >= capacity_pages(volume.pages()) {
        return Err(VolumeFault::Device);
    }
    let mut bytes = [255u8; 4096];
    volume.read_pinned(0, page, &mut bytes)?;
    Ok(bytes[0])
}

/// A pin holds three pages, while two others are committed.
fn holds_old(volume: &mut Volume<MemoryHost>) -> Result<bool, VolumeFault>
    requires alive { IsAlive volume.old.live volume.old.table (outside_of volume.old.host) }
    requires pins { length volume.old.table.pins.items ≡ 2 }
{
    commit(volume, 3, 1)?;
    volume.pin(0);
    let note = volume.note();
    let was = volume.is_current(0);
    commit(volume, 2, 2)?;
    let is = volume.is_current(0);
    let pinned = volume.pinned_note(0);
    let first = pinned_byte(volume, 0)?;
    let third = pinned_byte(volume, 2)?;
    let fourth = pinned_byte(volume, 3)?;
    let now = first_byte(volume, 0)?;
    let gone = first_byte(volume, 2)?;
    volume.pin(0);
    let again = volume.is_current(0);
    let newer = pinned_byte(volume, 0)?;
    let past = pinned_byte(volume, 2)?;
    Ok(
        was && !is
            && pinned == note
            && first == 1
            && third == 1
            && fourth == 0
            && now == 2
            && gone == 0
            && again
            && newer == 2
            && past == 0,
    )
}

#[test]
fn a_pin_holds_what_was_committed(rt: HostRuntime) {
    let is = match new_volume(rt.alloc(), 32) {
        Some(volume) => {
            let mut volume = volume;
            holds_old(&mut volume) == Ok(true)
        }
        None => false,
    };
    assert!(rt; is);
}
