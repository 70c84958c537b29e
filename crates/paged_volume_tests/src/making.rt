//! Volumes that are made.

use crate::files::{INDEXED, Part, SMALL, file_of};
use crate::volumes::{Content, content_at, host_of};
use memory_host::MemoryHost;
use paged_volume::format;
use paged_volume::volume_parts::{FormatFault, Note, OpenFault};
use std::alloc::Global;

/// How many calls the making of a volume of 32 pages makes: two writes and syncs of the gate, the first pages, 26 blank ones, a sync, and the size before.
const MAKING: u64 = 33;

/// More moments than that.
const MOST_CALLS: u64 = 40;

// A new volume of so many pages is this file, byte by byte, and is left as it is then.
fn is_file(alloc: Global, pages: u32, size: usize, parts: &[Part]) -> bool {
    let Ok(file) = file_of(alloc, size, parts) else {
        return false;
    };
    let Ok(host) = host_of(alloc, b"", u64::MAX) else {
        return false;
    };
    let mut host = host;
    (32..=1_048_576).contains(&pages)
        && format(&mut host, pages) == Ok(())
        && host.contents() == file.as_slice()
        && format(&mut host, pages) == Err(FormatFault::AlreadyVolume { gate: 1 })
        && host.contents() == file.as_slice()
}

#[test]
fn new_volumes(rt: HostRuntime) {
    assert!(rt; is_file(rt.alloc(), 64, 262_144, &SMALL));
    assert!(rt; is_file(rt.alloc(), 88, 360_448, &INDEXED));
}

const EMPTY: Content = Content {
    note: Note {
        commits: 0,
        used: 1,
        directory: 0,
    },
    depth: 0,
    bytes: [0, 0, 0],
};

// What a stop leaves while a volume is made: the new volume, or no volume.
fn is_new_or_none(found: Result<Content, OpenFault>) -> bool {
    match found {
        Ok(content) => content == EMPTY,
        Err(OpenFault::NotAVolume { size, gate }) => size < 16_384 || gate != 1,
        Err(_) => false,
    }
}

// Each image from this moment on is the new volume or no volume, and where it is made, the last one is the new volume.
fn stands_for_new(alloc: Global, host: &MemoryHost, from: u64, is_made: bool) -> bool {
    for moment in from..MOST_CALLS.min(host.clock().saturating_add(1)) {
        let is_one = is_new_or_none(content_at(alloc, host, moment, 0))
            && is_new_or_none(content_at(alloc, host, moment, 255));
        if !is_one {
            return false;
        }
    }
    !is_made || content_at(alloc, host, host.clock(), 255) == Ok(EMPTY)
}

// The making of a volume by a host that fails from this call on, with a stop from this moment on; whether it is made.
fn is_made_whole(alloc: Global, calls: u64, from: u64, made: bool) -> bool {
    let Ok(host) = host_of(alloc, b"", calls) else {
        return false;
    };
    let mut host = host;
    format(&mut host, 32).is_ok() == made && stands_for_new(alloc, &host, from, made)
}

#[test]
fn a_stop_while_a_volume_is_made(rt: HostRuntime) {
    assert!(rt; is_made_whole(rt.alloc(), MAKING, 0, true));
}

#[test]
fn a_failure_while_a_volume_is_made(rt: HostRuntime) {
    for calls in 0..MAKING {
        assert!(rt; is_made_whole(rt.alloc(), calls, calls, false));
    }
}
