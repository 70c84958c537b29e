//! Pages that are put and committed, with a stop after each call of the host, and each call failing.

ghost use Rattle.std.specs.Prelude.{◌≡◌, OnOk};
ghost use Rattle.memory_host.specs.Memory.{outside_of};
ghost use Rattle.paged_volume.specs.Standing.{IsAlive};

use crate::files::{FIRST, INDEXED, Part, SMALL, file_of};
use crate::volumes::{Content, ROOM, content_at, content_of, fill, host_of, put};
use memory_host::MemoryHost;
use paged_volume::layout::capacity;
use paged_volume::volume_parts::Note;
use paged_volume::{Volume, VolumeFault};
use std::alloc::{AllocError, Global};
use std::test::Fail;

/// More moments than a test has.
const MOST_MOMENTS: u64 = 24;

/// A change of a volume: what stands in it before and after; how many calls of the host attaching it makes, and how many the change.
#[derive(Clone, Copy)]
struct Change {
    old: Content,
    new: Content,
    attaching: u64,
    calls: u64,
    again: bool,
}

/// What stands in a volume that was changed so often.
const fn content(commits: u64, used: u64, directory: u64, depth: u32, bytes: [u8; 3]) -> Content {
    Content {
        note: Note {
            commits,
            used,
            directory,
        },
        depth,
        bytes,
    }
}

/// Puts the first three pages and commits them.
fn change_first(volume: &mut Volume<MemoryHost>) -> Result<(), VolumeFault>
    requires { IsAlive volume.old.live volume.old.table (outside_of volume.old.host) }
    ensures { OnOk result (IsAlive volume.new.live volume.new.table (outside_of volume.new.host)) }
{
    fill(volume, 3, 7)?;
    if capacity(volume.pages()) < 1025 {
        return Err(VolumeFault::Device);
    }
    volume.switch(1025, 3)
}

/// Puts the second page alone, and commits the first three, which are committed already.
fn change_again(volume: &mut Volume<MemoryHost>) -> Result<(), VolumeFault>
    requires { IsAlive volume.old.live volume.old.table (outside_of volume.old.host) }
    ensures { OnOk result (IsAlive volume.new.live volume.new.table (outside_of volume.new.host)) }
{
    put(volume, 1, 9)?;
    volume.sound();
    if volume.note().used != 1025 || capacity(volume.pages()) < 1536 {
        return Err(VolumeFault::Device);
    }
    volume.switch(1536, 4)
}

/// Makes a change, and answers whether it was made.
fn is_made(volume: &mut Volume<MemoryHost>, again: bool) -> bool
    requires { IsAlive volume.old.live volume.old.table (outside_of volume.old.host) }
{
    if again {
        change_again(volume).is_ok()
    } else {
        change_first(volume).is_ok()
    }
}

/// A file after a change.
fn changed(alloc: Global, file: &[u8], again: bool) -> Option<Vec<u8>> {
    let Ok(host) = host_of(alloc, file, u64::MAX) else {
        return None;
    };
    let Ok(volume) = Volume::attach(alloc, host) else {
        return None;
    };
    let mut volume = volume;
    if !is_made(&mut volume, again) {
        return None;
    }
    let host = volume.release();
    Vec::from_slice(alloc, host.contents()).ok()
}

// What a crash leaves at this moment is what stood there before the change or after it.
fn is_either(alloc: Global, host: &MemoryHost, moment: u64, filler: u8, change: Change) -> bool {
    let found = content_at(alloc, host, moment, filler);
    found == Ok(change.old) || found == Ok(change.new)
}

// Each image from this moment on is what stood there before the change or after it, and where it was made, the last one is the latter.
fn stands_for(alloc: Global, host: &MemoryHost, change: Change, from: u64, is_made: bool) -> bool {
    for moment in from..MOST_MOMENTS.min(host.clock().saturating_add(1)) {
        let is_one = is_either(alloc, host, moment, 0, change)
            && is_either(alloc, host, moment, 255, change);
        if !is_one {
            return false;
        }
    }
    !is_made || content_at(alloc, host, host.clock(), 255) == Ok(change.new)
}

/// The change is made, where it is to be made, and then the volume lives. A stop from this moment on leaves what was there before or after it.
fn is_whole(alloc: Global, host: MemoryHost, change: Change, from: u64, made: bool) -> bool {
    let Ok(volume) = Volume::attach(alloc, host) else {
        return false;
    };
    let mut volume = volume;
    is_made(&mut volume, change.again) == made
        && volume.is_alive() == made
        && stands_for(alloc, &volume.release(), change, from, made)
}

// The change, with a stop after each call of the host.
fn is_stopped(alloc: Global, file: &[u8], change: Change) -> bool {
    match host_of(alloc, file, change.attaching.saturating_add(change.calls)) {
        Ok(host) => is_whole(alloc, host, change, change.attaching, true),
        Err(_) => false,
    }
}

// The change by a host of which this call alone fails, with a stop after it and after each further one.
fn is_failed(alloc: Global, file: &[u8], change: Change, failing: u64) -> bool {
    match MemoryHost::new(alloc, file, &[failing], u64::MAX, ROOM) {
        Ok(host) => is_whole(alloc, host, change, failing, false),
        Err(_) => false,
    }
}

/// The change of a file with a stop after each call, and with each call failing; and what stands there after it.
fn is_changed(alloc: Global, file: &[u8], change: Change) -> bool {
    if content_of(alloc, file) != Ok(change.old) || !is_stopped(alloc, file, change) {
        return false;
    }
    for call in change.attaching..MOST_MOMENTS.min(change.attaching.saturating_add(change.calls)) {
        if !is_failed(alloc, file, change, call) {
            return false;
        }
    }
    true
}

/// Both changes of a file.
fn are_made(
    alloc: Global,
    size: usize,
    parts: &[Part],
    first: Change,
    again: Change,
) -> Result<bool, AllocError> {
    let file = file_of(alloc, size, parts)?;
    match changed(alloc, &file, false) {
        Some(next) => Ok(is_changed(alloc, &file, first) && is_changed(alloc, &next, again)),
        None => Ok(false),
    }
}

#[test]
fn a_small_volume_is_changed_whole(rt: HostRuntime) -> Result<(), Fail> {
    let first = Change {
        old: content(0, 1, 0, 0, [0, 0, 0]),
        new: content(1, 1025, 3, 0, [7, 7, 7]),
        attaching: 7,
        calls: 9,
        again: false,
    };
    let again = Change {
        old: content(1, 1025, 3, 0, [7, 7, 7]),
        new: content(2, 1536, 4, 0, [7, 9, 7]),
        attaching: 7,
        calls: 7,
        again: true,
    };
    let are = are_made(rt.alloc(), 262_144, &SMALL, first, again)?;
    assert!(rt; are);
    Ok(())
}

#[test]
fn a_volume_with_an_index_page_is_changed_whole(rt: HostRuntime) -> Result<(), Fail> {
    let first = Change {
        old: content(0, 1, 0, 1, [0, 0, 0]),
        new: content(1, 1025, 3, 1, [7, 7, 7]),
        attaching: 8,
        calls: 10,
        again: false,
    };
    let again = Change {
        old: content(1, 1025, 3, 1, [7, 7, 7]),
        new: content(2, 1536, 4, 1, [7, 9, 7]),
        attaching: 8,
        calls: 8,
        again: true,
    };
    let are = are_made(rt.alloc(), 360_448, &INDEXED, first, again)?;
    assert!(rt; are);
    Ok(())
}

/// The first change gives it an index page.
#[test]
fn a_volume_of_format_1_is_changed_whole(rt: HostRuntime) -> Result<(), Fail> {
    let first = Change {
        old: content(0, 1, 0, 0, [0, 0, 0]),
        new: content(1, 1025, 3, 1, [7, 7, 7]),
        attaching: 7,
        calls: 10,
        again: false,
    };
    let again = Change {
        old: content(1, 1025, 3, 1, [7, 7, 7]),
        new: content(2, 1536, 4, 1, [7, 9, 7]),
        attaching: 8,
        calls: 8,
        again: true,
    };
    let are = are_made(rt.alloc(), 360_448, &FIRST, first, again)?;
    assert!(rt; are);
    Ok(())
}
