//! Calls on two stored tables in turn over one area: what is entered is found, counted and gone over, until it is taken out; and each call traps.
ghost use Rattle.std.specs.Prelude.{◌≡◌, true, IfOk, IfSome, OnOk};
ghost use Rattle.objects.specs.joint_tables.table_lib.table_nodes.Sought.{IsTextHeld};
ghost use Rattle.objects.specs.swizzle.Heap.{IsHeld};
ghost use Rattle.objects.specs.swizzle.Touch.{Keeps};

use crate::store::fetch;
use crate::table_store::{FIRST, INTS, SECOND, STRINGS, store};
use memory_vault::memory::MemoryVault;
use objects::OpFault;
use objects::joint_ops::values::Sort;
use objects::objects::Objects;
use objects::swizzle::fault::SwizzleFault;
use std::alloc::Global;
use std::test::Fail;

// A call on a table. A string is one of one byte; what is entered is the object of a PID, or nil for 0.
#[derive(Clone, Copy)]
enum Call {
    EnterText(u8, u64),
    EnterInt(i32, u64),
    LookUpText(u8),
    LookUpInt(i32),
    NextText(Option<u8>),
    NextInt(Option<i32>),
    Count,
}

// What a call gives.
#[derive(Clone, Copy, PartialEq, Eq, Debug)]
enum Given {
    Done,
    Nothing,
    /// The object of this PID.
    Object(u64),
    /// A key, or its one byte, and the object of this PID.
    Pair(i32, u64),
    Count(u32),
    /// The program ends in the trap of this number.
    Trap(u32),
}

// A turn: the PID of a table, or nil for 0, a call on it, and what that must give.
struct Turn(u64, Call, Given);

const NIL: u32 = 4;

const WRONG_CLASS: u32 = 5;

const KEY_KIND: u32 = 9;

const TURNS: [Turn; 36] = [
    Turn(STRINGS, Call::Count, Given::Count(0)),
    Turn(STRINGS, Call::LookUpText(b'b'), Given::Nothing),
    Turn(STRINGS, Call::NextText(None), Given::Nothing),
    Turn(STRINGS, Call::EnterText(b'b', FIRST), Given::Done),
    Turn(STRINGS, Call::EnterText(b'a', SECOND), Given::Done),
    Turn(STRINGS, Call::LookUpText(b'b'), Given::Object(FIRST)),
    Turn(STRINGS, Call::LookUpText(b'a'), Given::Object(SECOND)),
    Turn(STRINGS, Call::LookUpText(b'c'), Given::Nothing),
    Turn(STRINGS, Call::Count, Given::Count(2)),
    Turn(STRINGS, Call::NextText(None), Given::Pair(97, SECOND)),
    Turn(STRINGS, Call::NextText(Some(b'a')), Given::Pair(98, FIRST)),
    Turn(STRINGS, Call::NextText(Some(b'b')), Given::Nothing),
    Turn(INTS, Call::EnterInt(3, SECOND), Given::Done),
    Turn(INTS, Call::EnterInt(-5, FIRST), Given::Done),
    Turn(INTS, Call::LookUpInt(3), Given::Object(SECOND)),
    Turn(INTS, Call::LookUpInt(-5), Given::Object(FIRST)),
    Turn(INTS, Call::LookUpInt(5), Given::Nothing),
    Turn(INTS, Call::NextInt(None), Given::Pair(-5, FIRST)),
    Turn(INTS, Call::NextInt(Some(-5)), Given::Pair(3, SECOND)),
    Turn(INTS, Call::NextInt(Some(3)), Given::Nothing),
    Turn(INTS, Call::EnterInt(3, FIRST), Given::Done),
    Turn(INTS, Call::LookUpInt(3), Given::Object(FIRST)),
    Turn(INTS, Call::Count, Given::Count(2)),
    Turn(STRINGS, Call::EnterText(b'b', 0), Given::Done),
    Turn(STRINGS, Call::LookUpText(b'b'), Given::Nothing),
    Turn(STRINGS, Call::Count, Given::Count(1)),
    Turn(STRINGS, Call::EnterInt(1, FIRST), Given::Trap(KEY_KIND)),
    Turn(INTS, Call::EnterText(b'a', FIRST), Given::Trap(KEY_KIND)),
    Turn(STRINGS, Call::LookUpInt(1), Given::Trap(KEY_KIND)),
    Turn(INTS, Call::LookUpText(b'a'), Given::Trap(KEY_KIND)),
    Turn(FIRST, Call::NextText(None), Given::Trap(WRONG_CLASS)),
    Turn(0, Call::NextInt(None), Given::Trap(NIL)),
    Turn(FIRST, Call::Count, Given::Trap(WRONG_CLASS)),
    Turn(0, Call::EnterInt(1, 0), Given::Trap(NIL)),
    Turn(STRINGS, Call::LookUpText(b'a'), Given::Object(SECOND)),
    Turn(INTS, Call::Count, Given::Count(2)),
];

// An object, fetched into the area; none for PID 0.
fn fetch_some(
    objects: &mut Objects,
    vault: &mut MemoryVault,
    pid: u64,
) -> Result<Option<u32>, SwizzleFault>
    requires { vault.old.alive ≡ true }
    ensures alive { OnOk result (vault.new.alive ≡ true) }
    ensures held { IfOk result (λ to. IfSome to (IsHeld objects.new)) }
    ensures keeps { OnOk result (Keeps objects.old objects.new) }
{
    if pid == 0 {
        return Ok(None);
    }
    match fetch(objects, vault, pid) {
        Ok(at) => Ok(Some(at)),
        Err(fault) => Err(fault),
    }
}

// A string of one byte, as a text of the area.
fn key_text(objects: &mut Objects, key: u8) -> Option<u32>
    ensures { IfSome result (IsTextHeld objects.new) }
{
    let text = match objects.text_of_bytes::<MemoryVault>(&[key]) {
        Ok(text) => text,
        Err(_) => return None,
    };
    match objects.sort_of::<MemoryVault>(Some(text)) {
        Sort::Text => Some(text),
        _ => None,
    }
}

// Enters an object under a string.
fn enter_text(
    objects: &mut Objects,
    vault: &mut MemoryVault,
    table: u64,
    key: u8,
    pid: u64,
) -> Result<Given, SwizzleFault>
    requires { vault.old.alive ≡ true }
    ensures { OnOk result (vault.new.alive ≡ true) }
{
    let Some(text) = key_text(objects, key) else {
        return Ok(Given::Nothing);
    };
    let to = fetch_some(objects, vault, pid)?;
    let table = fetch_some(objects, vault, table)?;
    match objects.enter_text(vault, text, table, to) {
        Ok(()) => Ok(Given::Done),
        Err(OpFault::Trap(trap)) => Ok(Given::Trap(trap as u32)),
        Err(OpFault::Swizzle(fault)) => Err(fault),
    }
}

// Enters an object under an int.
fn enter_int(
    objects: &mut Objects,
    vault: &mut MemoryVault,
    table: u64,
    key: i32,
    pid: u64,
) -> Result<Given, SwizzleFault>
    requires { vault.old.alive ≡ true }
    ensures { OnOk result (vault.new.alive ≡ true) }
{
    let to = fetch_some(objects, vault, pid)?;
    let table = fetch_some(objects, vault, table)?;
    match objects.enter_int(vault, key, table, to) {
        Ok(()) => Ok(Given::Done),
        Err(OpFault::Trap(trap)) => Ok(Given::Trap(trap as u32)),
        Err(OpFault::Swizzle(fault)) => Err(fault),
    }
}

// What was found, by its PID.
fn found(objects: &Objects, object: Option<u32>) -> Given
    requires { IfSome object (IsHeld objects.now) }
{
    match object {
        Some(at) => Given::Object(objects.pid_of(at)),
        None => Given::Nothing,
    }
}

// What is under a string.
fn look_up_text(
    objects: &mut Objects,
    vault: &mut MemoryVault,
    table: u64,
    key: u8,
) -> Result<Given, SwizzleFault>
    requires { vault.old.alive ≡ true }
    ensures { OnOk result (vault.new.alive ≡ true) }
{
    let Some(text) = key_text(objects, key) else {
        return Ok(Given::Nothing);
    };
    let table = fetch_some(objects, vault, table)?;
    match objects.lookup_text(vault, text, table) {
        Ok(object) => Ok(found(objects, object)),
        Err(OpFault::Trap(trap)) => Ok(Given::Trap(trap as u32)),
        Err(OpFault::Swizzle(fault)) => Err(fault),
    }
}

// What is under an int.
fn look_up_int(
    objects: &mut Objects,
    vault: &mut MemoryVault,
    table: u64,
    key: i32,
) -> Result<Given, SwizzleFault>
    requires { vault.old.alive ≡ true }
    ensures { OnOk result (vault.new.alive ≡ true) }
{
    let table = fetch_some(objects, vault, table)?;
    match objects.lookup_int(vault, key, table) {
        Ok(object) => Ok(found(objects, object)),
        Err(OpFault::Trap(trap)) => Ok(Given::Trap(trap as u32)),
        Err(OpFault::Swizzle(fault)) => Err(fault),
    }
}

// The one byte of a text, or -1.
fn byte_of(objects: &Objects, text: u32) -> i32
    requires { IsTextHeld objects.now text }
{
    match objects.text_bytes::<MemoryVault>(text) {
        [byte] => i32::from(*byte),
        _ => -1,
    }
}

// The string from which a scan goes on, if there is one.
fn after_text(objects: &mut Objects, after: Option<u8>) -> Option<u32>
    ensures { IfSome result (IsTextHeld objects.new) }
{
    match after {
        Some(key) => key_text(objects, key),
        None => None,
    }
}

// The next string, and what is under it.
fn next_text(
    objects: &mut Objects,
    vault: &mut MemoryVault,
    table: u64,
    after: Option<u8>,
) -> Result<Given, SwizzleFault>
    requires { vault.old.alive ≡ true }
    ensures { OnOk result (vault.new.alive ≡ true) }
{
    let after = after_text(objects, after);
    let table = fetch_some(objects, vault, table)?;
    match objects.next_text(vault, after, table) {
        Ok(Some((key, object))) => Ok(Given::Pair(byte_of(objects, key), objects.pid_of(object))),
        Ok(None) => Ok(Given::Nothing),
        Err(OpFault::Trap(trap)) => Ok(Given::Trap(trap as u32)),
        Err(OpFault::Swizzle(fault)) => Err(fault),
    }
}

// The next int, and what is under it.
fn next_int(
    objects: &mut Objects,
    vault: &mut MemoryVault,
    table: u64,
    after: Option<i32>,
) -> Result<Given, SwizzleFault>
    requires { vault.old.alive ≡ true }
    ensures { OnOk result (vault.new.alive ≡ true) }
{
    let table = fetch_some(objects, vault, table)?;
    match objects.next_int(vault, after, table) {
        Ok(Some((key, object))) => Ok(Given::Pair(key, objects.pid_of(object))),
        Ok(None) => Ok(Given::Nothing),
        Err(OpFault::Trap(trap)) => Ok(Given::Trap(trap as u32)),
        Err(OpFault::Swizzle(fault)) => Err(fault),
    }
}

// How many pairs there are.
fn count(objects: &mut Objects, vault: &mut MemoryVault, table: u64) -> Result<Given, SwizzleFault>
    requires { vault.old.alive ≡ true }
    ensures { OnOk result (vault.new.alive ≡ true) }
{
    let table = fetch_some(objects, vault, table)?;
    match objects.cardinality(vault, table) {
        Ok(count) => Ok(Given::Count(count)),
        Err(OpFault::Trap(trap)) => Ok(Given::Trap(trap as u32)),
        Err(OpFault::Swizzle(fault)) => Err(fault),
    }
}

// What a turn gives.
fn take_one(
    objects: &mut Objects,
    vault: &mut MemoryVault,
    turn: &Turn,
) -> Result<Given, SwizzleFault>
    requires { vault.old.alive ≡ true }
    ensures { OnOk result (vault.new.alive ≡ true) }
{
    match turn.1 {
        Call::EnterText(key, pid) => enter_text(objects, vault, turn.0, key, pid),
        Call::EnterInt(key, pid) => enter_int(objects, vault, turn.0, key, pid),
        Call::LookUpText(key) => look_up_text(objects, vault, turn.0, key),
        Call::LookUpInt(key) => look_up_int(objects, vault, turn.0, key),
        Call::NextText(after) => next_text(objects, vault, turn.0, after),
        Call::NextInt(after) => next_int(objects, vault, turn.0, after),
        Call::Count => count(objects, vault, turn.0),
    }
}

// The first turn that doesn't give what it must.
fn first_wrong(alloc: Global) -> Result<Option<usize>, Fail> {
    let mut vault = store(alloc)?;
    let mut objects = Objects::new(alloc, 1000)?;
    for (at, turn) in TURNS.iter().enumerate() {
        match take_one(&mut objects, &mut vault, turn) {
            Ok(given) => {
                if given != turn.2 {
                    return Ok(Some(at));
                }
            }
            Err(_) => return Ok(Some(at)),
        }
    }
    Ok(None)
}

#[test]
fn takes_turns_on_tables(rt: HostRuntime) -> Result<(), Fail> {
    let wrong = first_wrong(rt.alloc())?;
    assert!(rt; wrong.is_none(), "turn {}", wrong.unwrap_or(0));
    Ok(())
}

// How many pairs a new table has.
fn count_of_new(objects: &mut Objects, vault: &MemoryVault) -> Option<u32> {
    let table = match objects.make_table(vault) {
        Ok(table) => table,
        Err(_) => return None,
    };
    match objects.cardinality(vault, Some(table)) {
        Ok(count) => Some(count),
        Err(_) => None,
    }
}

#[test]
fn makes_a_table(rt: HostRuntime) -> Result<(), Fail> {
    let vault = store(rt.alloc())?;
    let mut objects = Objects::new(rt.alloc(), 8)?;
    let first = count_of_new(&mut objects, &vault);
    let second = count_of_new(&mut objects, &vault);
    assert!(rt; first == Some(0), "a new table");
    assert!(rt; second.is_none(), "a table for which there is no room");
    Ok(())
}
