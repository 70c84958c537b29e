//! Pins of a store in a volume of 32 pages, and views of them.

ghost use Rattle.std.specs.Prelude.{◌≡◌, IfSome, IsSome, OnOk, true, false};
ghost use Rattle.obj_store.specs.obj_layout.Stored.{IsHeaded};
ghost use Rattle.obj_store.specs.Spaces.{is_staged};
ghost use Rattle.obj_store.specs.paged_volume.Pinning.{pin_of};

use crate::objects::{new_store, store_over};
use memory_host::MemoryHost;
use obj_store::obj_layout::vault::{Vault, VaultFault};
use obj_store::{ObjStore, View};
use std::alloc::Global;
use std::test::Fail;

/// How many objects there are, each of a page's words: they lie in thirteen pages, which are all.
const OBJECTS: u64 = 12;

/// A text of 4,048 bytes, in 512 words, with this home and this last word.
fn page_text(home: u64, last: u64) -> [u64; 512]
    ensures { IsHeaded result }
{
    let mut words = [0u64; 512];
    words[0] = 1;
    words[2] = 0x0000_0fd0_0000_01fc;
    words[4] = home;
    words[511] = last;
    words
}

/// Settles, with the first object as the directory.
fn settle_first(store: &mut ObjStore<MemoryHost>) -> Result<(), VaultFault>
    requires { store.old.live ≡ true }
    ensures { OnOk result (store.new.live ≡ true) }
{
    if store.used() < 2 {
        return Err(VaultFault::Output);
    }
    store.settle(1)
}

/// Stores an object in each page but the last, where the last of them ends, and settles.
fn store_all(store: &mut ObjStore<MemoryHost>) -> Result<(), VaultFault>
    requires { store.old.live ≡ true }
{
    for number in 0..OBJECTS {
        store.append(&page_text(0, number))?;
    }
    settle_first(store)
}

/// A file in which all pages are committed.
fn whole_file(alloc: Global) -> Result<Vec<u8>, Fail> {
    let Some(store) = new_store(alloc) else {
        return Err(Fail::new("no store"));
    };
    let mut store = store;
    match store_all(&mut store) {
        Ok(()) => Ok(Vec::from_slice(alloc, store.release().contents())?),
        Err(_) => Err(Fail::new("nothing was settled")),
    }
}

/// The store in that file, of which the first of two pins holds what is committed.
fn pinned_store(alloc: Global, file: &[u8]) -> Option<ObjStore<MemoryHost>>
    ensures { IfSome result (λ store. store.live ≡ true) }
{
    let Some(store) = store_over(alloc, file, &[], u64::MAX) else {
        return None;
    };
    let mut store = store;
    match store.reserve_pins(alloc, 2) {
        Ok(()) => {
            store.pin(0);
            Some(store)
        }
        Err(_) => None,
    }
}

/// Changes each page, and settles.
fn change_all(store: &mut ObjStore<MemoryHost>) -> Result<(), VaultFault>
    requires { store.old.live ≡ true }
    ensures { OnOk result (store.new.live ≡ true) }
{
    for number in 0..OBJECTS {
        store.overwrite(1 + 512 * number, &page_text(100, 100 + number))?;
    }
    settle_first(store)
}

/// Changes the first page, which gets the last page that is free, and then the second.
fn change_two(store: &mut ObjStore<MemoryHost>) -> Result<(), VaultFault>
    requires { store.old.live ≡ true }
{
    store.overwrite(1, &page_text(200, 100))?;
    store.overwrite(513, &page_text(200, 101))
}

/// Gives up the first pin, where it holds something.
fn give_up(store: &mut ObjStore<MemoryHost>) -> bool
    requires { store.old.live ≡ true }
    ensures { result ≡ true → store.new.live ≡ true }
{
    if !store.is_pinned(0) {
        return false;
    }
    store.unpin(0);
    true
}

// What two changes answer, once all pages were changed under the pin, and the pin was given up where it is to be.
fn are_changed(store: &mut ObjStore<MemoryHost>, is_given_up: bool) -> bool
    requires { store.old.live ≡ true }
{
    if change_all(store).is_err() {
        return false;
    }
    if !is_given_up {
        let lacking = VaultFault::NoPages {
            held: 32,
            wanted: 1,
            pages: 32,
        };
        return change_two(store) == Err(lacking) && !store.is_alive();
    }
    give_up(store) && change_two(store) == Ok(())
}

// The same of a file's store.
fn are_changed_in(alloc: Global, file: &[u8], is_given_up: bool) -> bool {
    let Some(store) = pinned_store(alloc, file) else {
        return false;
    };
    let mut store = store;
    are_changed(&mut store, is_given_up)
}

#[test]
fn pages_that_a_pin_holds_are_lacked(rt: HostRuntime) -> Result<(), Fail> {
    let file = whole_file(rt.alloc())?;
    assert!(rt; are_changed_in(rt.alloc(), &file, false));
    Ok(())
}

#[test]
fn a_pin_that_is_given_up_gives_its_pages(rt: HostRuntime) -> Result<(), Fail> {
    let file = whole_file(rt.alloc())?;
    assert!(rt; are_changed_in(rt.alloc(), &file, true));
    Ok(())
}

/// Fetches the first object of a view, of which it asks the length before.
fn fetch_first(view: &mut View<MemoryHost>) -> Result<[u64; 512], VaultFault>
    requires { view.old.store.now.live ≡ true }
{
    let count = view.length(1)?;
    if count != 512 {
        return Err(VaultFault::Output);
    }
    let mut into = [0u64; 512];
    view.fetch(1, &mut into)?;
    Ok(into)
}

// A view has the first object with this home, and the numbers of the first commit.
fn is_seen(view: &mut View<MemoryHost>, home: u64) -> bool
    requires { view.old.store.now.live ≡ true }
{
    view.used() == 6145 && view.directory() == 1 && fetch_first(view) == Ok(page_text(home, home))
}

// A view of the first pin has the first object with this home, and may be written where it is to be.
fn is_viewed(store: &mut ObjStore<MemoryHost>, home: u64, is_writable: bool) -> bool
    requires { store.old.live ≡ true }
    ensures { result ≡ true → store.new.live ≡ true }
{
    if store.is_staged() {
        return false;
    }
    if !store.is_pinned(0) {
        return false;
    }
    let is = is_shown(store, home, is_writable);
    is && store.is_alive()
}

// The same where the pin holds something, and nothing is staged.
fn is_shown(store: &mut ObjStore<MemoryHost>, home: u64, is_writable: bool) -> bool
    requires live { store.old.live ≡ true }
    requires pin { IsSome (pin_of store.old.table 0) }
    requires unstaged { store.old.staged ≡ false }
{
    let mut view = store.view(0);
    view.writable() == is_writable && is_seen(&mut view, home)
}

/// Changes the first object and settles.
fn change_first(store: &mut ObjStore<MemoryHost>, home: u64) -> Result<(), VaultFault>
    requires { store.old.live ≡ true }
    ensures { OnOk result (store.new.live ≡ true) }
{
    store.overwrite(1, &page_text(home, home))?;
    settle_first(store)
}

// The view of a pin has what was committed when it was set, also after two further commits, and isn't writable then.
fn is_kept(store: &mut ObjStore<MemoryHost>) -> bool
    requires { store.old.live ≡ true }
{
    is_viewed(store, 0, true)
        && change_first(store, 7).is_ok()
        && is_viewed(store, 0, false)
        && change_first(store, 8).is_ok()
        && is_viewed(store, 0, false)
}

// The same of a file's store.
fn is_kept_in(alloc: Global, file: &[u8]) -> bool {
    let Some(store) = pinned_store(alloc, file) else {
        return false;
    };
    let mut store = store;
    is_kept(&mut store)
}

#[test]
fn a_view_keeps_what_was_committed(rt: HostRuntime) -> Result<(), Fail> {
    let file = whole_file(rt.alloc())?;
    assert!(rt; is_kept_in(rt.alloc(), &file));
    Ok(())
}

/// Writes the first object through a view, and settles there.
fn write_first(view: &mut View<MemoryHost>, home: u64) -> Result<(), VaultFault>
    requires alive { view.old.store.now.live ≡ true }
    requires writable { is_staged view.old.source ≡ true }
{
    view.overwrite(1, &page_text(home, home))?;
    if view.used() < 2 {
        return Err(VaultFault::Output);
    }
    view.settle(1)
}

/// Writes the first object through a view of the first pin, which is current.
fn write_viewed(store: &mut ObjStore<MemoryHost>, home: u64) -> bool
    requires { store.old.live ≡ true }
{
    if store.is_staged() {
        return false;
    }
    if !store.is_pinned(0) {
        return false;
    }
    let mut view = store.view(0);
    if !view.writable() {
        return false;
    }
    write_first(&mut view, home) == Ok(()) && view.writable()
}

// A view that was settled is current: the pin was moved to what was committed.
fn is_moved(store: &mut ObjStore<MemoryHost>) -> bool
    requires { store.old.live ≡ true }
{
    write_viewed(store, 9) && store.is_alive() && is_viewed(store, 9, true)
}

// The same of a file's store.
fn is_moved_in(alloc: Global, file: &[u8]) -> bool {
    let Some(store) = pinned_store(alloc, file) else {
        return false;
    };
    let mut store = store;
    is_moved(&mut store)
}

#[test]
fn a_view_that_settles_stays_current(rt: HostRuntime) -> Result<(), Fail> {
    let file = whole_file(rt.alloc())?;
    assert!(rt; is_moved_in(rt.alloc(), &file));
    Ok(())
}
