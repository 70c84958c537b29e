//! A store of structures, of their classes, and of a code object that names the classes.
ghost use Rattle.std.specs.Prelude.{◌≡◌, true, IfOk, IfSome, OnOk};
ghost use Rattle.objects.specs.swizzle.Heap.{IsHeld};
ghost use Rattle.objects.specs.swizzle.Touch.{Keeps};

use memory_vault::memory::MemoryVault;
use objects::objects::Objects;
use objects::swizzle::fault::SwizzleFault;
use objects::{OpFault, Value};
use std::alloc::Global;
use std::test::Fail;

// 1 in the upper half of a word.
const MANY: u64 = 1 << 32;

// The word of a reference, without the PID.
const PID: u64 = 1 << 63;

/// The PID of the code object. Its constants are the text of a class with an int, a bool and a reference, that of a class with a reference and an int,
/// and another code object.
pub const CODE: u64 = 16;

/// The PIDs of two structures of the first class, of which one refers to a copy of its text, and of one of the second class.
pub const FIRST: u64 = 34;

pub const COPY: u64 = 43;

pub const OTHER: u64 = 52;

// The objects from word 1 on.
const WORDS: [&[u64]; 7] = [
    // 1: `(int a;bool b;pntr c)`
    &[
        1,
        0,
        4 + 21 * MANY,
        0,
        0,
        0x623b_6120_746e_6928,
        0x6e70_3b62_206c_6f6f,
        0x29_6320_7274,
    ],
    // 9: `(pntr c;int a)`
    &[
        1,
        0,
        3 + 14 * MANY,
        0,
        0,
        0x3b63_2072_746e_7028,
        0x2961_2074_6e69,
    ],
    // 16: code of one byte
    &[
        6 + 3 * MANY,
        0,
        3 + MANY,
        0,
        PID + 1,
        PID + 9,
        PID + 16,
        0,
        0,
        2,
    ],
    // 26: `(int a;bool b;pntr c)`
    &[
        1,
        0,
        4 + 21 * MANY,
        0,
        0,
        0x623b_6120_746e_6928,
        0x6e70_3b62_206c_6f6f,
        0x29_6320_7274,
    ],
    // 34: 7, true, nil
    &[2 + 2 * MANY, 0, 3, 0, PID + 1, 0, 0, 7, 1],
    // 43: 8, false, the structure before
    &[2 + 2 * MANY, 0, 3, 0, PID + 26, PID + 34, 0, 8, 0],
    // 52: itself, 5
    &[2 + 2 * MANY, 0, 2, 0, PID + 9, PID + 52, 0, 5],
];

/// What a call gives.
#[derive(Clone, Copy, PartialEq, Eq, Debug)]
pub enum Given {
    Value(Value),
    Done,
    /// The program ends in the trap of this number.
    Trap(u32),
}

/// The store.
pub fn store(alloc: Global) -> Result<MemoryVault, Fail>
    ensures { IfOk result (λ vault. vault.alive ≡ true) }
{
    let mut words = Vec::new(alloc);
    words.push(0)?;
    for object in &WORDS {
        words.extend_from_slice(object)?;
    }
    let count = words.len();
    if count == 0 || count > 1000 {
        return Err("no such store".into());
    }
    Ok(MemoryVault::of_words(alloc, &words, 0, count as u64)?)
}

/// The object of a PID, fetched into the area.
pub fn fetch(objects: &mut Objects, vault: &mut MemoryVault, pid: u64) -> Result<u32, SwizzleFault>
    requires { vault.old.alive ≡ true }
    ensures alive { OnOk result (vault.new.alive ≡ true) }
    ensures held { IfOk result (IsHeld objects.new) }
    ensures keeps { OnOk result (Keeps objects.old objects.new) }
{
    objects.fetch(vault, pid.clamp(1, PID - 1))
}

// An object, fetched into the area; none for PID 0.
fn fetch_some(
    objects: &mut Objects,
    vault: &mut MemoryVault,
    pid: u64,
) -> Result<Option<u32>, SwizzleFault>
    requires { vault.old.alive ≡ true }
    ensures alive { OnOk result (vault.new.alive ≡ true) }
    ensures held { IfOk result (λ to. IfSome to (IsHeld objects.new)) }
{
    if pid == 0 {
        return Ok(None);
    }
    match fetch(objects, vault, pid) {
        Ok(at) => Ok(Some(at)),
        Err(fault) => Err(fault),
    }
}

/// What a field of the object of a PID, or of nil for 0, gives, of the class of a constant.
pub fn field(
    objects: &mut Objects,
    vault: &mut MemoryVault,
    pid: u64,
    constant: u32,
    number: u32,
) -> Result<Given, SwizzleFault>
    requires { vault.old.alive ≡ true }
    ensures { OnOk result (vault.new.alive ≡ true) }
{
    let object = fetch_some(objects, vault, pid)?;
    let code = fetch(objects, vault, CODE)?;
    match objects.get_field(vault, object, code, constant, number) {
        Ok(value) => Ok(Given::Value(value)),
        Err(OpFault::Trap(trap)) => Ok(Given::Trap(trap as u32)),
        Err(OpFault::Swizzle(fault)) => Err(fault),
    }
}

/// What writing a number to one gives.
pub fn write(
    objects: &mut Objects,
    vault: &mut MemoryVault,
    pid: u64,
    constant: u32,
    number: u32,
    z: i32,
) -> Result<Given, SwizzleFault>
    requires { vault.old.alive ≡ true }
    ensures { OnOk result (vault.new.alive ≡ true) }
{
    let object = fetch_some(objects, vault, pid)?;
    let code = fetch(objects, vault, CODE)?;
    match objects.set_field(vault, object, code, constant, number, Value::Num(z)) {
        Ok(()) => Ok(Given::Done),
        Err(OpFault::Trap(trap)) => Ok(Given::Trap(trap as u32)),
        Err(OpFault::Swizzle(fault)) => Err(fault),
    }
}

/// Whether the object of a PID, or nil for 0, is of the class of a constant.
pub fn class(
    objects: &mut Objects,
    vault: &mut MemoryVault,
    pid: u64,
    constant: u32,
) -> Result<Given, SwizzleFault>
    requires { vault.old.alive ≡ true }
    ensures { OnOk result (vault.new.alive ≡ true) }
{
    let object = fetch_some(objects, vault, pid)?;
    let code = fetch(objects, vault, CODE)?;
    match objects.is_class(vault, object, code, constant) {
        Ok(is) => Ok(Given::Value(Value::Flag(is))),
        Err(OpFault::Trap(trap)) => Ok(Given::Trap(trap as u32)),
        Err(OpFault::Swizzle(fault)) => Err(fault),
    }
}
