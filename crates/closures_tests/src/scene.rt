//! Stores of objects, and the closures that are fetched of them into an area.
ghost use Rattle.std.specs.Prelude.{◌≡◌, ◌≤◌, ◌^◌, true, IfOk, IfSome, OnOk};
ghost use Rattle.closures.specs.swizzle.Heap.{IsHeld, Stands};

use closures::closure::{code_of, make_closure, scope_of};
use closures::swizzle::fault::SwizzleFault;
use closures::swizzle::swizzle::Swizzle;
use memory_vault::memory::MemoryVault;
use memory_vault::obj_layout::kind::Kind;
use memory_vault::obj_layout::vault::VaultFault;
use std::alloc::Global;
use std::test::Fail;

/// What a call ended in that gave nothing.
#[derive(Clone, Copy, PartialEq, Eq, Debug)]
pub enum Ended {
    Damaged { at: u64, found: u64, wanted: u64 },
    Full { top: u32, wanted: u32, size: u32 },
    /// Another refusal of the store.
    Refused(VaultFault),
    /// It is no PID: no call was made.
    NoPid,
}

/// What a refusal ends in.
pub fn end_of(fault: SwizzleFault) -> Ended {
    match fault {
        SwizzleFault::AreaFull { top, wanted, size } => Ended::Full { top, wanted, size },
        SwizzleFault::Vault(VaultFault::Damaged { at, found, wanted }) => {
            Ended::Damaged { at, found, wanted }
        }
        SwizzleFault::Vault(refused) => Ended::Refused(refused),
    }
}

// One more than the greatest PID.
const PIDS: u64 = 1 << 63;

// The most words of a store of the tests.
const MOST_WORDS: usize = 1 << 10;

/// A store with these objects from word 1 on, one after the other.
pub fn store_of(alloc: Global, objects: &[&[u64]]) -> Result<MemoryVault, Fail>
    ensures { IfOk result (λ vault. vault.alive ≡ true) }
{
    let mut words = Vec::new(alloc);
    words.push(0)?;
    for object in objects {
        words.extend_from_slice(object)?;
    }
    let count = words.len();
    if count == 0 || count > MOST_WORDS {
        return Err("no such store".into());
    }
    Ok(MemoryVault::of_words(alloc, &words, 0, count as u64)?)
}

/// The object of a PID, fetched into the area.
pub fn fetch(vault: &mut MemoryVault, sw: &mut Swizzle, pid: u64) -> Result<u32, Ended>
    requires { vault.old.alive ≡ true }
    ensures alive { OnOk result (vault.new.alive ≡ true) }
    ensures held { IfOk result (IsHeld sw.new) }
{
    if pid == 0 || pid >= PIDS {
        return Err(Ended::NoPid);
    }
    match sw.touch_pid(vault, pid) {
        Ok(at) => Ok(at),
        Err(fault) => Err(end_of(fault)),
    }
}

/// The code of the closure of a PID.
pub fn code(vault: &mut MemoryVault, sw: &mut Swizzle, pid: u64) -> Result<u32, Ended>
    requires { vault.old.alive ≡ true }
{
    let closure = fetch(vault, sw, pid)?;
    match code_of(sw, vault, closure) {
        Ok(code) => Ok(code),
        Err(fault) => Err(end_of(fault)),
    }
}

/// Its scope.
pub fn scope(vault: &mut MemoryVault, sw: &mut Swizzle, pid: u64) -> Result<Option<u32>, Ended>
    requires { vault.old.alive ≡ true }
{
    let closure = fetch(vault, sw, pid)?;
    match scope_of(sw, vault, closure) {
        Ok(scope) => Ok(scope),
        Err(fault) => Err(end_of(fault)),
    }
}

/// An area with a code object, a scope and a closure that was made of them, or the end of that.
#[derive(Drop)]
pub struct Area {
    pub sw: Swizzle,
    pub closure: Result<u32, Ended>,
}

/// A closure in an area of so many words, after a code object of six words and, where the closure has one, a scope of seven.
pub fn made(alloc: Global, words: u32, scoped: bool) -> Result<Area, Fail>
    requires low { 5 ≤ words }
    requires high { words ≤ 2 ^ 25 }
    ensures { IfOk result (λ made. IfOk made.closure (IsHeld made.sw)) }
{
    let mut sw = Swizzle::new(alloc, words)?;
    let closure = made_in(&mut sw, scoped)?;
    Ok(Area { sw, closure })
}

// The closure after its parts, or the end of making it.
fn made_in(sw: &mut Swizzle, scoped: bool) -> Result<Result<u32, Ended>, Fail>
    ensures { IfOk result (λ closure. IfOk closure (IsHeld sw.new)) }
{
    let code = made_code(sw)?;
    let scope = made_scope(sw, scoped)?;
    Ok(made_closure(sw, code, scope))
}

fn made_code(sw: &mut Swizzle) -> Result<u32, Fail>
    ensures { IfOk result (IsHeld sw.new) }
{
    match sw.make(Kind::Code, 0, 2, 0) {
        Ok(code) => Ok(code),
        Err(_) => Err("no room for the code".into()),
    }
}

fn made_scope(sw: &mut Swizzle, scoped: bool) -> Result<Option<u32>, Fail>
    ensures scope { IfOk result (λ scope. IfSome scope (IsHeld sw.new)) }
    ensures stands { Stands sw.old sw.new }
{
    if !scoped {
        return Ok(None);
    }
    match sw.make(Kind::Scope, 2, 1, 0) {
        Ok(scope) => Ok(Some(scope)),
        Err(_) => Err("no room for the scope".into()),
    }
}

fn made_closure(sw: &mut Swizzle, code: u32, scope: Option<u32>) -> Result<u32, Ended>
    requires code { IsHeld sw.old code }
    requires scope { IfSome scope (IsHeld sw.old) }
    ensures { IfOk result (IsHeld sw.new) }
{
    match make_closure(sw, code, scope) {
        Ok(closure) => Ok(closure),
        Err(fault) => Err(end_of(fault)),
    }
}
