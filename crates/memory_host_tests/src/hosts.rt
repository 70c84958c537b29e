//! The host in memory: each call, what is seen of it, and what a crash then leaves.

use memory_host::MemoryHost;
use ps_port::{Host, HostFailed};
use std::alloc::{AllocError, Global};

// One call of a host.
#[derive(Clone, Copy)]
enum Call<'a> {
    Put(&'a [u8]),
    Write(u64, &'a [u8]),
    Sync,
    Size,
}

fn make(host: &mut MemoryHost, call: Call<'_>) -> Result<(), HostFailed> {
    match call {
        Call::Put(from) => host.put(from),
        Call::Write(at, from) => {
            if at > host.contents().len() as u64 {
                return Err(HostFailed);
            }
            host.write_at(at, from)
        }
        Call::Sync => host.sync(),
        Call::Size => match host.size() {
            Ok(_) => Ok(()),
            Err(fault) => Err(fault),
        },
    }
}

// What a call changes: all the bytes output, or the contents.
fn seen<'a>(host: &'a MemoryHost, call: Call<'_>) -> &'a [u8] {
    match call {
        Call::Put(_) => host.told_bytes(),
        _ => host.contents(),
    }
}

// A call, its answer, what is seen after it, and what a crash then leaves, with the filler where nothing was synced.
struct Row<'a>(Call<'a>, Result<(), HostFailed>, &'a [u8], &'a [u8]);

// All the calls of a host, and with what it begins.
struct Calls<'a> {
    contents: &'a [u8],
    // The calls that fail, and the first of those that fail from a number on.
    failing: &'a [u64],
    until: u64,
    room: u64,
    filler: u8,
    rows: &'a [Row<'a>],
    // How many of them were to write.
    writes: u64,
}

fn row_holds(host: &mut MemoryHost, row: &Row<'_>) -> bool {
    make(host, row.0) == row.1 && seen(host, row.0) == row.2
}

// Whether the calls are answered so, with what is seen then, and are all that the host counts.
fn rows_hold(host: &mut MemoryHost, rows: &[Row<'_>]) -> bool {
    for row in rows {
        if !row_holds(host, row) {
            return false;
        }
    }
    host.clock() == rows.len() as u64
}

// Whether a crash at this moment leaves these bytes.
fn leaves(alloc: Global, host: &MemoryHost, moment: u64, filler: u8, wanted: &[u8]) -> bool {
    match host.crash(alloc, moment, filler) {
        Ok(image) => image.as_slice() == wanted,
        Err(_) => false,
    }
}

// Whether a crash leaves so much at each moment.
fn crashes_hold(alloc: Global, host: &MemoryHost, calls: &Calls<'_>) -> bool {
    let mut moment = 0u64;
    for row in calls.rows {
        moment = moment.saturating_add(1);
        if !leaves(alloc, host, moment, calls.filler, row.3) {
            return false;
        }
    }
    leaves(alloc, host, 0, calls.filler, calls.contents)
}

fn host_of(alloc: Global, calls: &Calls<'_>) -> Result<MemoryHost, AllocError> {
    MemoryHost::new(
        alloc,
        calls.contents,
        calls.failing,
        calls.until,
        calls.room,
    )
}

// Whether all holds for a host with which they begin.
fn calls_hold(alloc: Global, host: &mut MemoryHost, calls: &Calls<'_>) -> bool {
    rows_hold(host, calls.rows) && host.writes() == calls.writes && crashes_hold(alloc, host, calls)
}

// The same of a new host.
fn are_made(alloc: Global, calls: &Calls<'_>) -> bool {
    match host_of(alloc, calls) {
        Ok(mut host) => calls_hold(alloc, &mut host, calls),
        Err(_) => false,
    }
}

static PUTS: Calls<'static> = Calls {
    contents: b"disk",
    failing: &[1, 9],
    until: 4,
    room: 4096,
    filler: b'#',
    rows: &[
        Row(Call::Put(b"first "), Ok(()), b"first ", b"disk"),
        Row(Call::Put(b"hello"), Err(HostFailed), b"first he", b"disk"),
        Row(Call::Put(b""), Ok(()), b"first he", b"disk"),
        Row(Call::Put(b"r"), Ok(()), b"first her", b"disk"),
        Row(Call::Put(b"x"), Err(HostFailed), b"first her", b"disk"),
    ],
    writes: 0,
};

#[test]
fn calls_of_a_memory_host(rt: HostRuntime) {
    assert!(rt; are_made(rt.alloc(), &PUTS));
}

// A call of 5 bytes and one of 1 byte fill the room; one of 2 bytes between them has none.
static ROOM: Calls<'static> = Calls {
    contents: b"",
    failing: &[],
    until: 100,
    room: 69 + 65,
    filler: b'#',
    rows: &[
        Row(Call::Put(b"hello"), Ok(()), b"hello", b""),
        Row(Call::Put(b"ab"), Err(HostFailed), b"hello", b""),
        Row(Call::Put(b"c"), Ok(()), b"helloc", b""),
        Row(Call::Put(b""), Err(HostFailed), b"helloc", b""),
    ],
    writes: 0,
};

// Whether no host is made whose room is more than there is.
fn is_none_made(alloc: Global) -> bool {
    MemoryHost::new(alloc, b"", &[], 100, u64::MAX).is_err()
}

#[test]
fn the_room_of_a_memory_host(rt: HostRuntime) {
    assert!(rt; are_made(rt.alloc(), &ROOM) && is_none_made(rt.alloc()));
}

static NO_BYTES: Calls<'static> = Calls {
    contents: b"",
    failing: &[],
    until: 100,
    room: 128,
    filler: b'#',
    rows: &[
        Row(Call::Put(b""), Ok(()), b"", b""),
        Row(Call::Put(b""), Ok(()), b"", b""),
        Row(Call::Put(b""), Err(HostFailed), b"", b""),
    ],
    writes: 0,
};

#[test]
fn calls_of_no_bytes_take_room(rt: HostRuntime) {
    assert!(rt; are_made(rt.alloc(), &NO_BYTES));
}

// Calls 3 and 6 fail: a write and a sync.
static DISK: Calls<'static> = Calls {
    contents: b"abcdef",
    failing: &[3, 6],
    until: 100,
    room: 4096,
    filler: b'#',
    rows: &[
        Row(Call::Size, Ok(()), b"abcdef", b"abcdef"),
        Row(Call::Write(2, b"XY"), Ok(()), b"abXYef", b"ab##ef"),
        Row(Call::Write(5, b"UV"), Ok(()), b"abXYeUV", b"ab##e##"),
        Row(
            Call::Write(0, b"!"),
            Err(HostFailed),
            b"abXYeUV",
            b"#b##e##",
        ),
        Row(Call::Sync, Ok(()), b"abXYeUV", b"abXYeUV"),
        Row(Call::Write(7, b"W"), Ok(()), b"abXYeUVW", b"abXYeUV#"),
        Row(Call::Sync, Err(HostFailed), b"abXYeUVW", b"abXYeUV#"),
        Row(Call::Write(8, b""), Ok(()), b"abXYeUVW", b"abXYeUV#"),
        Row(Call::Sync, Ok(()), b"abXYeUVW", b"abXYeUVW"),
    ],
    writes: 5,
};

// Whether the host gives its last three bytes.
fn gives_the_end(host: &mut MemoryHost) -> bool {
    let mut range = [0u8; 3];
    host.contents().len() == 8
        && host.read_at(5, &mut range).is_ok()
        && range.as_slice() == b"UVW".as_slice()
}

// Whether the calls of the disk hold, and its end and its size are given then.
fn disk_holds(alloc: Global) -> bool {
    match host_of(alloc, &DISK) {
        Ok(mut host) => {
            calls_hold(alloc, &mut host, &DISK) && gives_the_end(&mut host) && host.size() == Ok(8)
        }
        Err(_) => false,
    }
}

#[test]
fn the_disk_of_a_memory_host(rt: HostRuntime) {
    assert!(rt; disk_holds(rt.alloc()));
}

// There is room for one write of 4 bytes and for what is put, and for no write of 5 between them.
static WRITES: Calls<'static> = Calls {
    contents: b"abcdef",
    failing: &[],
    until: 100,
    room: 68 + 68,
    filler: 0,
    rows: &[
        Row(Call::Write(1, b"1234"), Ok(()), b"a1234f", b"a\0\0\0\0f"),
        Row(
            Call::Write(0, b"ABCDE"),
            Err(HostFailed),
            b"a1234f",
            b"a\0\0\0\0f",
        ),
        Row(Call::Put(b"told"), Ok(()), b"told", b"a\0\0\0\0f"),
    ],
    writes: 1,
};

#[test]
fn writes_past_the_room(rt: HostRuntime) {
    assert!(rt; are_made(rt.alloc(), &WRITES));
}
