//! Each test of an object, in order.

ghost use Rattle.std.specs.Prelude.{◌≡◌, IfSome, OnOk, true};
ghost use Rattle.obj_store.specs.obj_layout.Stored.{IsHeaded};

use crate::objects::{new_store, short_text, text};
use memory_host::MemoryHost;
use obj_store::ObjStore;
use obj_store::obj_layout::vault::{Vault, VaultFault};
use std::alloc::Global;

/// What is wrong in a store of two texts of six words: the home of each text, a PID, the number that is tested, and its bound.
const DAMAGED: [(u64, u64, u64, u64); 10] = [
    // There is no PID 0, and thirteen words are used.
    (5, 0, 0, 1),
    (5, 13, 13, 13),
    (5, u64::MAX, u64::MAX, 13),
    // Of four words the last isn't there.
    (5, 10, 14, 13),
    // Kinds 0 and 10.
    (5, 2, 0, 9),
    (10, 5, 10, 9),
    // Bits 16 to 18.
    (0x0007_0001, 5, 7, 0),
    // One byte without a number word.
    (1 << 32, 3, 1, 0),
    // One word more than 2^31.
    (0x7fff_fff5, 3, 0x8000_0001, 0x8000_0000),
    // Twelve words, of which the last two aren't there.
    (0, 3, 15, 13),
];

/// A store of two texts with this home.
fn two_texts(alloc: Global, home: u64) -> Option<ObjStore<MemoryHost>>
    ensures { IfSome result (λ store. store.live ≡ true) }
{
    let Some(store) = new_store(alloc) else {
        return None;
    };
    let mut store = store;
    match store_two(&mut store, home) {
        Ok(()) => Some(store),
        Err(_) => None,
    }
}

/// Stores two texts with this home.
fn store_two(store: &mut ObjStore<MemoryHost>, home: u64) -> Result<(), VaultFault>
    requires { store.old.live ≡ true }
    ensures { OnOk result (store.new.live ≡ true) }
{
    store.append(&text(home, 6))?;
    store.append(&text(home, 7))?;
    Ok(())
}

// The length of an object is refused, and the store lives no more.
fn is_length_refused(store: &mut ObjStore<MemoryHost>, pid: u64, damaged: VaultFault) -> bool
    requires { store.old.live ≡ true }
{
    store.length(pid) == Err(damaged) && !store.is_alive()
}

// The same of the overwriting of an object by these words.
fn is_refused(
    store: &mut ObjStore<MemoryHost>,
    pid: u64,
    words: &[u64],
    damaged: VaultFault,
) -> bool
    requires live { store.old.live ≡ true }
    requires headed { IsHeaded words.now }
{
    store.overwrite(pid, words) == Err(damaged) && !store.is_alive()
}

// What is damaged is refused, by the length of the object or by its overwriting.
fn is_found(alloc: Global, row: (u64, u64, u64, u64), by_length: bool) -> bool {
    let (home, at, found, wanted) = row;
    let damaged = VaultFault::Damaged { at, found, wanted };
    let Some(store) = two_texts(alloc, home) else {
        return false;
    };
    let mut store = store;
    if by_length {
        is_length_refused(&mut store, at, damaged)
    } else {
        is_refused(&mut store, at, &text(8, 9), damaged)
    }
}

// The place of the first row that isn't found, by lengths or by overwritings.
fn other_row(alloc: Global, by_length: bool) -> Option<usize> {
    for (place, row) in DAMAGED.iter().enumerate() {
        if !is_found(alloc, *row, by_length) {
            return Some(place);
        }
    }
    None
}

#[test]
fn a_length_is_refused(rt: HostRuntime) {
    assert_eq!(rt; other_row(rt.alloc(), true), None);
}

#[test]
fn an_overwriting_is_refused(rt: HostRuntime) {
    assert_eq!(rt; other_row(rt.alloc(), false), None);
}

// The lengths of two texts are six words, and five words are no other text for one of them.
fn is_length_tested(store: &mut ObjStore<MemoryHost>) -> bool
    requires { store.old.live ≡ true }
{
    let wrong = VaultFault::Damaged {
        at: 7,
        found: 6,
        wanted: 5,
    };
    store.length(1) == Ok(6)
        && store.length(7) == Ok(6)
        && is_refused(store, 7, &short_text(9), wrong)
}

// The same in a store of two texts.
fn is_length_tested_anew(alloc: Global) -> bool {
    let Some(store) = two_texts(alloc, 5) else {
        return false;
    };
    let mut store = store;
    is_length_tested(&mut store)
}

#[test]
fn the_test_of_a_length(rt: HostRuntime) {
    assert!(rt; is_length_tested_anew(rt.alloc()));
}
