//! A run over a volume that keeps an object.

ghost use Rattle.std.specs.Prelude.{◌≡◌, IfSome, true};
ghost use Rattle.command_answers.specs.obj_layout.Stored.{IsHeaded};

use crate::commands::{RUN, SUM, answer_over, is_unwritten};
use command_answers::memory_host::MemoryHost;
use command_answers::obj_layout::vault::{Vault, VaultFault};
use command_answers::obj_store::ObjStore;
use command_answers::volume_host;
use std::alloc::Global;

/// A text of eight bytes, in six words.
fn text() -> [u64; 6]
    ensures { IsHeaded result }
{
    [1, 0, 0x0000_0008_0000_0002, 0, 0, 0x6261]
}

// The store of a new volume.
fn new_store(alloc: Global) -> Option<ObjStore<MemoryHost>>
    ensures { IfSome result (λ store. store.live ≡ true) }
{
    let Ok(host) = volume_host(alloc, &[]) else {
        return None;
    };
    match ObjStore::attach(alloc, host) {
        Ok(store) => Some(store),
        Err(_) => None,
    }
}

// Keeps a text in a store, as its directory.
fn keep(store: &mut ObjStore<MemoryHost>) -> Result<(), VaultFault>
    requires { store.old.live ≡ true }
{
    let pid = store.append(&text())?;
    if store.used() <= pid {
        return Err(VaultFault::Output);
    }
    store.settle(pid)
}

// The host of a volume that keeps a text.
fn host_with_a_text(alloc: Global) -> Option<MemoryHost> {
    let Some(store) = new_store(alloc) else {
        return None;
    };
    let mut store = store;
    match keep(&mut store) {
        Ok(()) => Some(store.release()),
        Err(_) => None,
    }
}

// A stop leaves these bytes at this moment, with this byte where anything may stand.
fn is_image(alloc: Global, host: &MemoryHost, moment: u64, filler: u8, bytes: &[u8]) -> bool {
    match host.crash(alloc, moment, filler) {
        Ok(image) => image.as_slice() == bytes,
        Err(_) => false,
    }
}

// The same at each moment.
fn are_images(alloc: Global, host: &MemoryHost, bytes: &[u8]) -> bool {
    for moment in 0..host.clock() {
        if !is_image(alloc, host, moment, 0, bytes) || !is_image(alloc, host, moment, 255, bytes) {
            return false;
        }
    }
    true
}

// Whether a run over a file of these bytes tells the sum, and leaves them at each moment.
fn leaves(alloc: Global, bytes: &[u8]) -> bool {
    match answer_over(alloc, RUN, bytes, &[]) {
        Ok(answer) => {
            answer.is(SUM, 0)
                && is_unwritten(answer.host(), bytes)
                && are_images(alloc, answer.host(), bytes)
        }
        Err(_) => false,
    }
}

// The same of a volume that keeps a text.
fn leaves_a_text(alloc: Global) -> bool {
    match host_with_a_text(alloc) {
        Some(host) => leaves(alloc, host.contents()),
        None => false,
    }
}

#[test]
fn a_run_leaves_the_objects_of_its_volume(rt: HostRuntime) {
    assert!(rt; leaves_a_text(rt.alloc()));
}
