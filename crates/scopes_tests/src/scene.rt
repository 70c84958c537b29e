//! Stores of objects, and the scopes that are fetched of them into an area.
ghost use Rattle.std.specs.Prelude.{◌≡◌, true, IfOk, IfSome, OnOk};
ghost use Rattle.scopes.specs.swizzle.Heap.{Heap, IsHeld};
ghost use Rattle.scopes.specs.heap_ops.Layouts.{AreSo};

use crate::ended::Ended;
use memory_vault::memory::MemoryVault;
use scopes::heap_ops::layouts::Layouts;
use scopes::heap_places::value::Value;
use scopes::names::{get_kept, set_kept};
use scopes::swizzle::swizzle::Swizzle;
use scopes::way::{parent_of, scope_out};
use std::alloc::Global;

// One more than the greatest PID.
const PIDS: u64 = 1 << 63;

// The most words of a store of the tests.
const MOST_WORDS: usize = 1 << 10;

/// A store with these words, if there may be such a store.
pub fn store_of(alloc: Global, words: &[u64]) -> Option<MemoryVault>
    ensures { IfSome result (λ vault. vault.alive ≡ true) }
{
    let count = words.len();
    if count == 0 || count > MOST_WORDS {
        return None;
    }
    match MemoryVault::of_words(alloc, words, 0, count as u64) {
        Ok(vault) => Some(vault),
        Err(_) => None,
    }
}

/// The object of a PID, fetched into the area.
pub fn fetch(vault: &mut MemoryVault, sw: &mut Swizzle, pid: u64) -> Result<u32, Ended>
    requires { vault.old.alive ≡ true }
    ensures alive { OnOk result (vault.new.alive ≡ true) }
    ensures held { IfOk result (IsHeld sw.new) }
{
    if pid == 0 || pid >= PIDS {
        return Err(None);
    }
    match sw.touch_pid(vault, pid) {
        Ok(at) => Ok(at),
        Err(fault) => Err(Some(fault)),
    }
}

/// The scope so many levels out from the scope of a PID.
pub fn out_of(vault: &mut MemoryVault, sw: &mut Swizzle, pid: u64, up: u32) -> Result<u32, Ended>
    requires { vault.old.alive ≡ true }
{
    let scope = fetch(vault, sw, pid)?;
    match scope_out(sw, vault, scope, up) {
        Ok(at) => Ok(at),
        Err(fault) => Err(Some(fault)),
    }
}

/// The parent of the scope of a PID.
pub fn parent(vault: &mut MemoryVault, sw: &mut Swizzle, pid: u64) -> Result<Option<u32>, Ended>
    requires { vault.old.alive ≡ true }
{
    let scope = fetch(vault, sw, pid)?;
    match parent_of(sw, vault, scope) {
        Ok(parent) => Ok(parent),
        Err(fault) => Err(Some(fault)),
    }
}

/// What the scope of a PID keeps under a name.
pub fn kept(
    vault: &mut MemoryVault,
    sw: &mut Swizzle,
    layouts: &mut Layouts,
    pid: u64,
    name: u32,
) -> Result<Value, Ended>
    requires alive { vault.old.alive ≡ true }
    requires so { (heap : Heap) → AreSo heap layouts.old.entries.items }
{
    let scope = fetch(vault, sw, pid)?;
    match get_kept(sw, vault, layouts, scope, name) {
        Ok(value) => Ok(value),
        Err(fault) => Err(Some(fault)),
    }
}

/// Writes what it keeps there.
pub fn keep(
    vault: &mut MemoryVault,
    sw: &mut Swizzle,
    layouts: &mut Layouts,
    pid: u64,
    name: u32,
    to: Value,
) -> Result<(), Ended>
    requires alive { vault.old.alive ≡ true }
    requires so { (heap : Heap) → AreSo heap layouts.old.entries.items }
{
    if let Value::Ref(Some(_)) = to {
        return Err(None);
    }
    let scope = fetch(vault, sw, pid)?;
    match set_kept(sw, vault, layouts, scope, name, to) {
        Ok(()) => Ok(()),
        Err(fault) => Err(Some(fault)),
    }
}
