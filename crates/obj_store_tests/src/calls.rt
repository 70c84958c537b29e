//! What each call answers where no fault comes.

ghost use Rattle.std.specs.Prelude.{◌≡◌, OnOk, true};

use crate::objects::{fetch, left, new_store, page_of_text, text};
use memory_host::MemoryHost;
use obj_store::ObjStore;
use obj_store::obj_layout::vault::{Vault, VaultFault};
use std::alloc::Global;

// A new store holds nothing, in a volume of 32 pages.
fn is_empty(alloc: Global) -> bool {
    match new_store(alloc) {
        Some(store) => {
            store.used() == 1
                && store.capacity() == 6656
                && store.directory() == 0
                && store.is_alive()
        }
        None => false,
    }
}

#[test]
fn a_new_store_is_empty(rt: HostRuntime) {
    assert!(rt; is_empty(rt.alloc()));
}

/// Stores eighty-six texts, of which the last lies across the end of a page, and changes that one.
fn store_texts(store: &mut ObjStore<MemoryHost>) -> Result<[u64; 6], VaultFault>
    requires { store.old.live ≡ true }
    ensures { OnOk result (store.new.live ≡ true) }
{
    let mut last = 0;
    for number in 0..86u64 {
        last = store.append(&text(number, 7))?;
    }
    store.overwrite(last, &text(90, 91))?;
    fetch(store, last)
}

// The texts are stored, and the last two of them are fetched.
fn are_stored(store: &mut ObjStore<MemoryHost>) -> bool
    requires { store.old.live ≡ true }
{
    store_texts(store) == Ok(text(90, 91))
        && store.used() == 517
        && fetch(store, 505) == Ok(text(84, 7))
}

// The same in a new store.
fn are_stored_anew(alloc: Global) -> bool {
    let Some(store) = new_store(alloc) else {
        return false;
    };
    let mut store = store;
    are_stored(&mut store)
}

#[test]
fn objects_across_the_end_of_a_page(rt: HostRuntime) {
    assert!(rt; are_stored_anew(rt.alloc()));
}

/// Stores, settles and puts.
fn settle(store: &mut ObjStore<MemoryHost>) -> Result<(), VaultFault>
    requires { store.old.live ≡ true }
    ensures { OnOk result (store.new.live ≡ true) }
{
    let _ = store_texts(store)?;
    store.put(b"so far")?;
    if store.used() != 517 {
        return Err(VaultFault::Output);
    }
    store.settle(511)
}

// The texts are stored and settled.
fn are_settled(store: &mut ObjStore<MemoryHost>) -> bool
    requires { store.old.live ≡ true }
{
    settle(store) == Ok(()) && store.directory() == 511
}

// The texts that were settled, and the last one of them.
fn are_held(store: &mut ObjStore<MemoryHost>) -> bool
    requires { store.old.live ≡ true }
{
    store.used() == 517 && store.directory() == 511 && fetch(store, 511) == Ok(text(90, 91))
}

// What was put was output, and a stop leaves what was settled.
fn are_left(alloc: Global, host: &MemoryHost) -> bool {
    let Some(store) = left(alloc, host, host.clock(), 255) else {
        return false;
    };
    let mut store = store;
    are_held(&mut store) && host.told_bytes() == b"so far".as_slice()
}

// The texts are settled in a new store, and found again.
fn are_found_again(alloc: Global) -> bool {
    let Some(store) = new_store(alloc) else {
        return false;
    };
    let mut store = store;
    are_settled(&mut store) && are_left(alloc, &store.release())
}

#[test]
fn what_is_settled_is_found_again(rt: HostRuntime) {
    assert!(rt; are_found_again(rt.alloc()));
}

/// Stores eleven objects of 600 words.
fn store_pages(store: &mut ObjStore<MemoryHost>) -> Result<(), VaultFault>
    requires { store.old.live ≡ true }
    ensures { OnOk result (store.new.live ≡ true) }
{
    for number in 0..11u64 {
        store.append(&page_of_text(number))?;
    }
    Ok(())
}

/// Fills the store: eleven objects of 600 words, then nine of six.
fn fill(store: &mut ObjStore<MemoryHost>) -> Result<u64, VaultFault>
    requires { store.old.live ≡ true }
    ensures { OnOk result (store.new.live ≡ true) }
{
    store_pages(store)?;
    for number in 0..9u64 {
        store.append(&text(number, number))?;
    }
    Ok(store.used())
}

// The store is full after these objects.
fn is_full(store: &mut ObjStore<MemoryHost>) -> bool
    requires { store.old.live ≡ true }
{
    let full = VaultFault::Full {
        used: 6655,
        wanted: 6,
        capacity: 6656,
    };
    fill(store) == Ok(6655) && store.append(&text(1, 2)) == Err(full) && !store.is_alive()
}

// The same of a new store.
fn is_full_anew(alloc: Global) -> bool {
    let Some(store) = new_store(alloc) else {
        return false;
    };
    let mut store = store;
    is_full(&mut store)
}

#[test]
fn full_is_answered_at_the_capacity(rt: HostRuntime) {
    assert!(rt; is_full_anew(rt.alloc()));
}
