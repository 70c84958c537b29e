ghost use Rattle.std.specs.Prelude.{◌≡◌, ◌<◌, ◌≤◌, length, string_bytes, IfSome, IfOk, OnErr, is_err, not};
ghost use Rattle.ps_outside.specs.Outside.{Rose, next_count};
ghost use Rattle.ps_port.specs.FileView.{silent};

use crate::device_file::DeviceFile;
use crate::{Host, HostFailed};
use std::alloc::{AllocError, Global};
use std::fs::{OpenFile, OpenOptions};
use std::io::ErrorKind;
use std::os::unix::fs::FileExt;
use std::rt::Files;

// The standard descriptors are three.
const STANDARD: usize = 3;

/// One file and the standard output of the real system. It is trusted: it tells nothing of its content, since no contract says what a system
/// does with the bytes that it is given.
#[derive(Drop)]
pub struct FileHost<R: Files> {
    rt: R,
    path: String,
    create: bool,
    file: Option<R::File>,
    // What stands in the place of standard descriptors that were closed, so that the file takes none of them.
    stand_ins: Vec<R::File>,
    clock: u64,
    device_calls: u64,
    device_faults: u64,
    output_faults: u64,
}

impl<R: Files + Print + Clone + Drop> FileHost<R> {
    /// A host over the file of this path, which is opened and locked at the first call of the device. Where it isn't there it is made then,
    /// if `create` says so.
    pub fn new(rt: &R, alloc: Global, path: &str, create: bool) -> Result<FileHost<R>, AllocError>
        ensures path { IfOk result (λ host. string_bytes host.path ≡ path.now) }
        ensures create { IfOk result (λ host. host.create ≡ create) }
        ensures clock { IfOk result (λ host. host.clock ≡ 0) }
        ensures calls { IfOk result (λ host. host.device_calls ≡ 0) }
        ensures faults { IfOk result (λ host. (host.device_faults ≡ 0) × (host.output_faults ≡ 0)) }
    {
        Ok(FileHost {
            rt: rt.clone()?,
            path: String::from_str(alloc, path)?,
            create,
            file: None,
            stand_ins: Vec::with_capacity(alloc, STANDARD)?,
            clock: 0,
            device_calls: 0,
            device_faults: 0,
            output_faults: 0,
        })
    }
}

impl<R: Files> FileHost<R>
where
    R::File: DeviceFile + FileExt,
{
    // A call of the device begins: it is counted, and the file is opened where it isn't yet and can be.
    fn begin(&mut self)
        ensures later { self.old.clock ≤ self.new.clock }
        ensures moves { Rose self.old.clock self.new.clock }
        ensures calls { self.new.device_calls ≡ next_count self.old.device_calls }
        ensures device { self.new.device_faults ≡ self.old.device_faults }
        ensures output { self.new.output_faults ≡ self.old.output_faults }
    {
        self.clock = self.clock.saturating_add(1);
        self.device_calls = self.device_calls.saturating_add(1);
        if self.file.is_none() {
            self.file = opened(&self.rt, &self.path, self.create, &mut self.stand_ins);
        }
    }

    // It ends: well, or the device failed.
    fn end(&mut self, is_well: bool) -> Result<(), HostFailed>
        ensures clock { self.new.clock ≡ self.old.clock }
        ensures calls { self.new.device_calls ≡ self.old.device_calls }
        ensures counts { self.old.device_faults ≤ self.new.device_faults }
        ensures cause { OnErr result (Rose self.old.device_faults self.new.device_faults) }
        ensures output { self.new.output_faults ≡ self.old.output_faults }
        ensures answer { is_err result ≡ not is_well }
    {
        if is_well {
            return Ok(());
        }
        self.device_faults = self.device_faults.saturating_add(1);
        Err(HostFailed)
    }
}

// A file of this path, open for reading and writing, locked, and with none of the standard descriptors.
fn opened<R: Files>(
    rt: &R,
    path: &str,
    create: bool,
    stand_ins: &mut Vec<R::File>,
) -> Option<R::File>
where
    R::File: DeviceFile,
{
    fill_standard(rt, stand_ins);
    match OpenOptions::new()
        .read(true)
        .write(true)
        .create(create)
        .open(rt, path)
    {
        Ok(file) => {
            if !file.is_standard() && file.lock() {
                Some(file)
            } else {
                None
            }
        }
        Err(_) => None,
    }
}

// Opens what can't be written until no standard descriptor is free.
fn fill_standard<R: Files>(rt: &R, stand_ins: &mut Vec<R::File>)
where
    R::File: DeviceFile,
{
    for _ in 0..STANDARD {
        match OpenOptions::new().read(true).open(rt, "/") {
            Ok(file) => {
                if !file.is_standard() || stand_ins.push(file).is_err() {
                    return;
                }
            }
            Err(_) => return,
        }
    }
}

impl<R: Files + Print + Clone + Drop> Host for FileHost<R>
where
    R::File: DeviceFile + FileExt,
{
    ghost outside = { λ host. silent host.clock host.device_calls host.device_faults host.output_faults };

    ghost is_image = { λ host bytes is. is };

    ghost one = { λ host a b is other. absurd is };

    fn size(&mut self) -> Result<u64, HostFailed> {
        self.begin();
        let length = match &self.file {
            Some(file) => match file.metadata() {
                Ok(found) => Some(found.len()),
                Err(_) => None,
            },
            None => None,
        };
        self.end(length.is_some())?;
        Ok(length.unwrap_or(0))
    }

    /// A read that gives no byte before the range is filled is a fault.
    fn read_at(&mut self, at: u64, into: &mut [u8]) -> Result<(), HostFailed> {
        self.begin();
        let is_well = match &self.file {
            Some(file) => file.read_exact_at(into, at).is_ok(),
            None => false,
        };
        self.end(is_well)
    }

    /// A write that takes no byte of a piece that isn't empty is a fault.
    fn write_at(&mut self, at: u64, from: &[u8]) -> Result<(), HostFailed> {
        self.begin();
        let is_well = match &self.file {
            Some(file) => file.write_all_at(from, at).is_ok(),
            None => false,
        };
        self.end(is_well)
    }

    fn sync(&mut self) -> Result<(), HostFailed> {
        self.begin();
        let is_well = match &self.file {
            Some(file) => file.sync_all().is_ok(),
            None => false,
        };
        self.end(is_well)
    }

    /// Writes to the standard output, and keeps nothing back. Each write that fails counts as a fault,
    /// also where the descriptor is closed.
    fn put(&mut self, from: &[u8]) -> Result<(), HostFailed> {
        self.clock = self.clock.saturating_add(1);
        if !write_whole(&self.rt, from) {
            self.output_faults = self.output_faults.saturating_add(1);
            return Err(HostFailed);
        }
        Ok(())
    }
}

// Writes all the bytes, in as many pieces as it takes. It answers whether all of them were taken.
fn write_whole<R: Print>(rt: &R, bytes: &[u8]) -> bool {
    let mut rest = bytes;
    while !rest.is_empty() {
        match write_piece(rt, rest) {
            Some(count) => rest = &rest[count..],
            None => return false,
        }
    }
    true
}

// Writes some of the bytes, one at least, and answers how many were taken. A call that a signal
// interrupts is made again.
fn write_piece<R: Print>(rt: &R, bytes: &[u8]) -> Option<usize>
    ensures some { IfSome result (λ count. 0 < count) }
    ensures within { IfSome result (λ count. count ≤ length bytes.now) }
{
    for _ in 0..u64::MAX {
        match rt.write_some(bytes) {
            Ok(0) => return None,
            Ok(count) => return Some(count),
            Err(fault) if fault.kind() == ErrorKind::Interrupted => {}
            Err(_) => return None,
        }
    }
    None
}
