use crate::command::Command;
use memory_host::MemoryHost;
use std::alloc::{AllocError, Global};

/// How many calls of a host don't fail but where they are listed.
const CALLS: u64 = 1_000_000;

/// The room of a host: for what it is written and output, and for the records of its calls.
const ROOM: u64 = 16_000_000;

/// A host with these bytes, whose calls fail as listed.
pub fn host_of(alloc: Global, bytes: &[u8], failing: &[u64]) -> Result<MemoryHost, AllocError> {
    MemoryHost::new(alloc, bytes, failing, CALLS, ROOM)
}

/// The bytes of a new volume of so many pages, as the command makes it.
pub fn new_volume(alloc: Global, pages: &str) -> Result<Vec<u8>, AllocError> {
    let format = Command {
        words: &["format", "v.vol"],
        last: pages,
        texts: &[],
    };
    let made = format.over(alloc, host_of(alloc, b"", &[])?)?;
    Vec::from_slice(alloc, made.host().contents())
}

/// A host with a new volume of 32 pages, whose calls fail as listed.
pub fn volume_host(alloc: Global, failing: &[u64]) -> Result<MemoryHost, AllocError> {
    let bytes = new_volume(alloc, "32")?;
    host_of(alloc, &bytes, failing)
}
