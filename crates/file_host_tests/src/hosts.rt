//! The host over a made-up system, and over a file.

use crate::folders::{folder_of, path_in, remove};
use ps_port::{FileHost, Host, HostFailed};
use scripted_system::{Script, Step};
use std::alloc::{AllocError, Global};
use std::cell::Cell;
use std::fs;
use std::test::Fail;

// What the calls of a system do, the answer to a put of five bytes, and how many of them the output took.
struct Put<'a>(&'a [Step], Result<(), HostFailed>, usize);

static PUTS: [Put<'static>; 6] = [
    Put(&[Step::Moves(5)], Ok(()), 5),
    Put(&[Step::Moves(2), Step::Moves(1), Step::Moves(9)], Ok(()), 5),
    Put(
        &[
            Step::Interrupted,
            Step::Moves(4),
            Step::Interrupted,
            Step::Moves(1),
        ],
        Ok(()),
        5,
    ),
    Put(
        &[Step::Moves(2), Step::Moves(0), Step::Moves(3)],
        Err(HostFailed),
        2,
    ),
    Put(
        &[Step::Moves(2), Step::Fails, Step::Moves(3)],
        Err(HostFailed),
        2,
    ),
    Put(&[Step::Fails], Err(HostFailed), 0),
];

// Whether the host over a system answers a put so.
fn is_put(alloc: Global, system: &Script<'_>, answer: Result<(), HostFailed>) -> bool {
    match FileHost::new(system, alloc, "v.vol", false) {
        Ok(mut host) => host.put(b"hello") == answer,
        Err(_) => false,
    }
}

// Whether the host over such a system puts so.
fn put_holds(alloc: Global, row: &Put<'_>) -> bool {
    let (calls, moved) = (Cell::new(0), Cell::new(0));
    let system = Script {
        steps: row.0,
        calls: &calls,
        moved: &moved,
    };
    is_put(alloc, &system, row.1) && moved.get() == row.2
}

// The host of the real system, whose methods are called here alone.
struct RealHost(FileHost<HostRuntime>);

impl Drop for RealHost {
    fn drop(self) {
        let RealHost(_) = self;
    }
}

impl RealHost {
    fn new(rt: &HostRuntime, path: &str, create: bool) -> Result<RealHost, AllocError> {
        Ok(RealHost(FileHost::new(rt, rt.alloc(), path, create)?))
    }

    fn size(&mut self) -> Result<u64, HostFailed> {
        self.0.size()
    }

    fn read_at(&mut self, at: u64, into: &mut [u8]) -> Result<(), HostFailed> {
        self.0.read_at(at, into)
    }

    fn write_at(&mut self, at: u64, from: &[u8]) -> Result<(), HostFailed> {
        self.0.write_at(at, from)
    }

    fn sync(&mut self) -> Result<(), HostFailed> {
        self.0.sync()
    }

    fn put(&mut self, from: &[u8]) -> Result<(), HostFailed> {
        self.0.put(from)
    }
}

// Whether the host of a real output puts a line.
fn tells_a_line(rt: &HostRuntime) -> bool {
    match RealHost::new(rt, "v.vol", false) {
        Ok(mut host) => host.put(b"told\n").is_ok(),
        Err(_) => false,
    }
}

#[test]
fn writes_of_a_file_host(rt: HostRuntime) {
    assert!(rt; tells_a_line(&rt));
    for (place, row) in PUTS.iter().enumerate() {
        assert!(rt; put_holds(rt.alloc(), row), "row {place}");
    }
}

// A host answers neither its size nor a sync.
fn answers_nothing(host: &mut RealHost) -> bool {
    host.size().is_err() && host.sync().is_err()
}

// A path has no device: no file is made where it isn't to be, and a folder is none.
fn has_no_device(rt: &HostRuntime, path: &str, create: bool) -> bool {
    match RealHost::new(rt, path, create) {
        Ok(mut host) => answers_nothing(&mut host),
        Err(_) => false,
    }
}

// The device of a new file takes two writes.
fn takes_writes(host: &mut RealHost) -> bool {
    host.size() == Ok(0)
        && host.write_at(0, b"volume").is_ok()
        && host.write_at(3, b"UME and more").is_ok()
        && host.sync().is_ok()
        && host.size() == Ok(15)
}

// It gives what they wrote; the last range isn't there whole.
fn gives_ranges(host: &mut RealHost) -> bool {
    let mut range = [0u8; 8];
    host.read_at(2, &mut range).is_ok()
        && range.as_slice() == b"lUME and".as_slice()
        && host.read_at(8, &mut range).is_err()
}

// The device of a new file keeps what is written, and no other host has it as long as its own does.
fn is_kept_alone(rt: &HostRuntime, path: &str, other: &mut RealHost) -> bool {
    match RealHost::new(rt, path, true) {
        Ok(mut host) => takes_writes(&mut host) && gives_ranges(&mut host) && other.size().is_err(),
        Err(_) => false,
    }
}

// The device of a new file is kept by its host, and another has it then.
fn has_a_device(rt: &HostRuntime, path: &str) -> bool {
    match RealHost::new(rt, path, false) {
        Ok(mut other) => is_kept_alone(rt, path, &mut other) && other.size() == Ok(15),
        Err(_) => false,
    }
}

// Whether a file has these bytes.
fn file_is(rt: &HostRuntime, path: &str, wanted: &[u8]) -> bool {
    match fs::read(rt, path) {
        Ok(bytes) => bytes.as_slice() == wanted,
        Err(_) => false,
    }
}

// Whether a path has a device where one is made, and none before.
fn device_holds(rt: &HostRuntime, path: &str) -> bool {
    has_no_device(rt, path, false)
        && has_a_device(rt, path)
        && file_is(rt, path, b"volUME and more")
}

// The same of a file in a folder, which is no device itself.
fn devices_hold(rt: &HostRuntime, folder: &str) -> Result<bool, AllocError> {
    let path = path_in(rt.alloc(), folder, "v.vol")?;
    Ok(device_holds(rt, path.as_str()) && has_no_device(rt, folder, true))
}

#[test]
fn the_device_of_a_file_host(rt: HostRuntime) -> Result<(), Fail> {
    let folder = folder_of(&rt, "ps_port_device")?;
    assert!(rt; devices_hold(&rt, folder.as_str())?);
    remove(&rt, folder.as_str())?;
    Ok(())
}
