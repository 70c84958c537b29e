//! A stop after each call of the host, and each call that fails.

ghost use Rattle.std.specs.Prelude.{◌≡◌, OnOk, true};

use crate::objects::{fetch, left, new_file, new_store, page_of_text, store_in, store_over, text};
use memory_host::MemoryHost;
use obj_store::ObjStore;
use obj_store::obj_layout::vault::{Vault, VaultFault};
use std::alloc::Global;
use std::test::Fail;

/// More calls than a test makes.
const MOST_CALLS: u64 = 17;

/// Stores a text and settles it.
fn store_text(store: &mut ObjStore<MemoryHost>) -> Result<(), VaultFault>
    requires { store.old.live ≡ true }
    ensures { OnOk result (store.new.live ≡ true) }
{
    let pid = store.append(&text(3, 4))?;
    store.settle(pid)
}

// The text was settled.
fn holds_text(store: &mut ObjStore<MemoryHost>) -> bool
    requires { store.old.live ≡ true }
{
    store.used() == 7 && store.directory() == 1 && fetch(store, 1) == Ok(text(3, 4))
}

// A stop at this moment leaves the text whole, or, where it may, the empty space.
fn is_left(alloc: Global, host: &MemoryHost, moment: u64, filler: u8, or_nothing: bool) -> bool {
    let Some(store) = left(alloc, host, moment, filler) else {
        return false;
    };
    let mut store = store;
    if or_nothing && store.used() == 1 {
        store.directory() == 0
    } else {
        holds_text(&mut store)
    }
}

// The text is settled where it is to be, and then the store lives. A stop leaves the empty space or the text whole, and where it is settled, the text.
fn is_settled(alloc: Global, store: ObjStore<MemoryHost>, is_made: bool) -> bool
    requires { store.live ≡ true }
{
    let mut store = store;
    if store_text(&mut store).is_ok() != is_made || store.is_alive() != is_made {
        return false;
    }
    let host = store.release();
    let end = host.clock();
    is_left(alloc, &host, end, 0, !is_made) && is_left(alloc, &host, end, 255, !is_made)
}

// The text is settled in a file, over a host of which these calls fail, and all of them from this one on, where it is to be.
fn is_settled_over(alloc: Global, file: &[u8], failing: &[u64], calls: u64, is_made: bool) -> bool {
    match store_over(alloc, file, failing, calls) {
        Some(store) => is_settled(alloc, store, is_made),
        None => false,
    }
}

#[test]
fn a_stop_while_a_text_is_settled(rt: HostRuntime) -> Result<(), Fail> {
    let file = new_file(rt.alloc())?;
    for calls in 7..MOST_CALLS {
        assert!(rt; is_settled_over(rt.alloc(), &file, &[], calls, calls >= 15));
    }
    Ok(())
}

#[test]
fn one_call_that_fails(rt: HostRuntime) -> Result<(), Fail> {
    let file = new_file(rt.alloc())?;
    for failing in 7..MOST_CALLS {
        assert!(rt; is_settled_over(rt.alloc(), &file, &[failing], u64::MAX, failing >= 15));
    }
    Ok(())
}

/// A file in which a text is settled.
fn settled_file(alloc: Global) -> Result<Vec<u8>, Fail> {
    let Some(store) = new_store(alloc) else {
        return Err(Fail::new("no store"));
    };
    let mut store = store;
    match store_text(&mut store) {
        Ok(()) => Ok(Vec::from_slice(alloc, store.release().contents())?),
        Err(_) => Err(Fail::new("nothing was settled")),
    }
}

// The text is fetched where no call fails, and else it isn't, and the store lives no more.
fn is_fetched(store: &mut ObjStore<MemoryHost>, fails: bool) -> bool
    requires { store.old.live ≡ true }
{
    if fails {
        fetch(store, 1) == Err(VaultFault::Device) && !store.is_alive()
    } else {
        fetch(store, 1) == Ok(text(3, 4)) && store.is_alive()
    }
}

// The text of a file is fetched, by a host of which this call alone fails.
fn is_fetch_failed(alloc: Global, file: &[u8], failing: u64) -> bool {
    let Some(store) = store_over(alloc, file, &[failing], u64::MAX) else {
        return false;
    };
    let mut store = store;
    is_fetched(&mut store, failing < 8)
}

#[test]
fn a_call_that_fails_while_a_text_is_fetched(rt: HostRuntime) -> Result<(), Fail> {
    let file = settled_file(rt.alloc())?;
    for failing in 7..10 {
        assert!(rt; is_fetch_failed(rt.alloc(), &file, failing));
    }
    Ok(())
}

/// Fetches a text, stores another, writes over that and tells bytes, and settles nothing.
fn stage(store: &mut ObjStore<MemoryHost>) -> Result<(), VaultFault>
    requires { store.old.live ≡ true }
{
    fetch(store, 1)?;
    let pid = store.append(&text(5, 6))?;
    store.overwrite(pid, &text(7, 8))?;
    store.put(b"so far")
}

// There were writes, and at each moment a stop leaves the text.
fn is_always_left(alloc: Global, host: &MemoryHost) -> bool {
    for moment in 0..host.clock() {
        if !is_left(alloc, host, moment, 255, false) {
            return false;
        }
    }
    host.writes() > 0
}

// What is staged over a file leaves what the file holds.
fn is_staged(alloc: Global, file: &[u8]) -> bool {
    let Some(store) = store_in(alloc, file) else {
        return false;
    };
    let mut store = store;
    stage(&mut store).is_ok() && is_always_left(alloc, &store.release())
}

#[test]
fn what_is_not_settled_leaves_what_is_held(rt: HostRuntime) -> Result<(), Fail> {
    let file = settled_file(rt.alloc())?;
    assert!(rt; is_staged(rt.alloc(), &file));
    Ok(())
}

/// Stores an object that lies in two pages.
fn store_page(store: &mut ObjStore<MemoryHost>) -> Result<(), VaultFault>
    requires { store.old.live ≡ true }
    ensures { OnOk result (store.new.live ≡ true) }
{
    store.append(&page_of_text(7))?;
    Ok(())
}

/// Stores it and settles it.
fn settle_page(store: &mut ObjStore<MemoryHost>) -> Result<(), VaultFault>
    requires { store.old.live ≡ true }
{
    store_page(store)?;
    if store.used() != 601 {
        return Err(VaultFault::Output);
    }
    store.settle(1)
}

// How many calls a page takes that is stored in a new store, or settled there.
fn calls_of_page(alloc: Global, is_settled: bool) -> Option<u64> {
    let Some(store) = new_store(alloc) else {
        return None;
    };
    let mut store = store;
    let answer = if is_settled {
        settle_page(&mut store)
    } else {
        store_page(&mut store)
    };
    if answer.is_ok() {
        Some(store.release().clock())
    } else {
        None
    }
}

#[test]
fn the_calls_of_two_pages(rt: HostRuntime) {
    // Seven to attach; the first page is read and written, the second written.
    assert_eq!(rt; calls_of_page(rt.alloc(), false), Some(10));
    // The map page, the root page and the selector are written, with three syncs.
    assert_eq!(rt; calls_of_page(rt.alloc(), true), Some(16));
}

/// Fetches a text twice, and writes over it by the words that it has.
fn rewrite(store: &mut ObjStore<MemoryHost>) -> Result<(), VaultFault>
    requires { store.old.live ≡ true }
{
    fetch(store, 1)?;
    fetch(store, 1)?;
    store.overwrite(1, &text(3, 4))
}

// How many calls that takes over a file in which the text is settled, and how many of them are writes.
fn calls_of_rewriting(alloc: Global, file: &[u8]) -> Option<(u64, u64)> {
    let Some(store) = store_in(alloc, file) else {
        return None;
    };
    let mut store = store;
    if rewrite(&mut store).is_err() {
        return None;
    }
    let host = store.release();
    Some((host.clock(), host.writes()))
}

#[test]
fn what_is_there_is_not_written(rt: HostRuntime) -> Result<(), Fail> {
    let file = settled_file(rt.alloc())?;
    // Seven to attach; the page is read once.
    assert_eq!(rt; calls_of_rewriting(rt.alloc(), &file), Some((8, 0)));
    Ok(())
}
