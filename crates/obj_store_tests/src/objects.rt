//! Stores to be tested, and objects to be stored.

ghost use Rattle.std.specs.Prelude.{◌≡◌, [], IfSome, OnOk, true};
ghost use Rattle.obj_store.specs.obj_layout.Stored.{IsHeaded};

use memory_host::MemoryHost;
use obj_store::ObjStore;
use obj_store::obj_layout::vault::{Vault, VaultFault};
use obj_store::paged_volume::format;
use std::alloc::{AllocError, Global};

/// The room of a host: bytes and records of its calls.
const ROOM: u64 = 1 << 22;

/// The file of a new volume of 32 pages, so with room for 6,656 words.
pub fn new_file(alloc: Global) -> Result<Vec<u8>, AllocError> {
    let mut host = MemoryHost::new(alloc, b"", &[], u64::MAX, ROOM)?;
    let _ = format(&mut host, 32);
    Vec::from_slice(alloc, host.contents())
}

/// The store in a file, over a host of which these calls fail, and all of them from this one on; or none, where it isn't attached.
pub fn store_over(
    alloc: Global,
    file: &[u8],
    failing: &[u64],
    calls: u64,
) -> Option<ObjStore<MemoryHost>>
    ensures live { IfSome result (λ store. store.live ≡ true) }
    ensures pins { IfSome result (λ store. store.table.pins.items ≡ []) }
{
    let Ok(host) = MemoryHost::new(alloc, file, failing, calls, ROOM) else {
        return None;
    };
    match ObjStore::attach(alloc, host) {
        Ok(store) => Some(store),
        Err(_) => None,
    }
}

/// The store in a file.
pub fn store_in(alloc: Global, file: &[u8]) -> Option<ObjStore<MemoryHost>>
    ensures { IfSome result (λ store. store.live ≡ true) }
{
    store_over(alloc, file, &[], u64::MAX)
}

/// The store in a new volume.
pub fn new_store(alloc: Global) -> Option<ObjStore<MemoryHost>>
    ensures { IfSome result (λ store. store.live ≡ true) }
{
    match new_file(alloc) {
        Ok(file) => store_in(alloc, &file),
        Err(_) => None,
    }
}

/// The store in the file that a stop leaves at this moment, with this byte where anything may stand.
pub fn left(
    alloc: Global,
    host: &MemoryHost,
    moment: u64,
    filler: u8,
) -> Option<ObjStore<MemoryHost>>
    ensures { IfSome result (λ store. store.live ≡ true) }
{
    match host.crash(alloc, moment, filler) {
        Ok(image) => store_in(alloc, &image),
        Err(_) => None,
    }
}

/// A text with no byte, in five words, the last of which is its home.
pub fn short_text(home: u64) -> [u64; 5]
    ensures { IsHeaded result }
{
    [1, 0, 1, 0, home]
}

/// A text of eight bytes, in six words.
pub fn text(home: u64, bytes: u64) -> [u64; 6]
    ensures { IsHeaded result }
{
    [1, 0, 0x0000_0008_0000_0002, 0, home, bytes]
}

/// A text of 4,752 bytes, in 600 words, of which the last is this.
pub fn page_of_text(last: u64) -> [u64; 600]
    ensures { IsHeaded result }
{
    let mut words = [0u64; 600];
    words[0] = 1;
    words[2] = 0x0000_1290_0000_0254;
    words[599] = last;
    words
}

/// Fetches a text of six words, of which it asks the length before.
pub fn fetch(store: &mut ObjStore<MemoryHost>, pid: u64) -> Result<[u64; 6], VaultFault>
    requires { store.old.live ≡ true }
    ensures { OnOk result (store.new.live ≡ true) }
{
    let count = store.length(pid)?;
    if count != 6 {
        return Err(VaultFault::Output);
    }
    let mut into = [0u64; 6];
    store.fetch(pid, &mut into)?;
    Ok(into)
}
