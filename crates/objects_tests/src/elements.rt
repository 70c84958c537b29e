//! Elements of stored vectors, and their bounds. Each call is made twice in a new area: the vector isn't known at first, and then it is.
ghost use Rattle.std.specs.Prelude.{◌≡◌, true, OnOk};
ghost use Rattle.objects.specs.swizzle.Heap.{Heap};
ghost use Rattle.objects.specs.heap_places.Places.{IsNear};

use crate::store::fetch;
use crate::vector_store::{BOOLS, EMPTY, INTS, NO_BOOL, NO_BOUND, NO_INT, STRINGS, TEXT, store};
use memory_vault::memory::MemoryVault;
use memory_vault::obj_layout::vault::VaultFault;
use objects::objects::Objects;
use objects::swizzle::fault::SwizzleFault;
use objects::{OpFault, Value};
use std::alloc::Global;
use std::test::Fail;

// What is put as an element.
#[derive(Clone, Copy)]
enum Put {
    Num(i32),
    Flag(bool),
    Nil,
}

// What a call asks of a vector.
#[derive(Clone, Copy)]
enum Call {
    /// The element at a subscript.
    Get(i32),
    /// Its number, by what is known of the vector once the element was read.
    Number(i32),
    /// To write one, and to read it then.
    Set(i32, Put),
    Low,
    High,
}

// What a call gives.
#[derive(Clone, Copy, PartialEq, Eq, Debug)]
enum Given {
    Value(Value),
    Number(Option<i32>),
    /// The program ends in the trap of this number.
    Trap(u32),
}

// What it must give.
#[derive(Clone, Copy)]
enum Wanted {
    Num(i32),
    Flag(bool),
    Nil,
    /// The object of a PID.
    Object(u64),
    Number(Option<i32>),
    Trap(u32),
    /// The vector is damaged: what was found, and what was wanted.
    Damaged(u64, u64),
}

// The PID of a vector, what is asked of it, and what must be given.
type Row = (u64, Call, Wanted);

const ROWS: [Row; 50] = [
    (INTS, Call::Get(5), Wanted::Num(4)),
    (INTS, Call::Get(6), Wanted::Num(9)),
    (INTS, Call::Get(7), Wanted::Num(-1)),
    (INTS, Call::Get(4), Wanted::Trap(3)),
    (INTS, Call::Get(8), Wanted::Trap(3)),
    (INTS, Call::Get(i32::MIN), Wanted::Trap(3)),
    (INTS, Call::Get(i32::MAX), Wanted::Trap(3)),
    (INTS, Call::Number(5), Wanted::Number(Some(4))),
    (INTS, Call::Number(7), Wanted::Number(Some(-1))),
    (INTS, Call::Number(8), Wanted::Trap(3)),
    (INTS, Call::Low, Wanted::Num(5)),
    (INTS, Call::High, Wanted::Num(7)),
    (INTS, Call::Set(5, Put::Num(-40)), Wanted::Num(-40)),
    (INTS, Call::Set(7, Put::Num(0)), Wanted::Num(0)),
    (INTS, Call::Set(6, Put::Flag(true)), Wanted::Num(1)),
    (INTS, Call::Set(6, Put::Flag(false)), Wanted::Num(0)),
    (INTS, Call::Set(6, Put::Nil), Wanted::Damaged(1, 0)),
    (INTS, Call::Set(8, Put::Num(1)), Wanted::Trap(3)),
    (INTS, Call::Set(4, Put::Nil), Wanted::Trap(3)),
    (BOOLS, Call::Get(1), Wanted::Flag(true)),
    (BOOLS, Call::Get(2), Wanted::Flag(false)),
    (BOOLS, Call::Get(0), Wanted::Trap(3)),
    (BOOLS, Call::Get(3), Wanted::Trap(3)),
    (BOOLS, Call::Number(1), Wanted::Number(Some(1))),
    (BOOLS, Call::Number(2), Wanted::Number(Some(0))),
    (BOOLS, Call::Low, Wanted::Num(1)),
    (BOOLS, Call::High, Wanted::Num(2)),
    (BOOLS, Call::Set(1, Put::Flag(false)), Wanted::Flag(false)),
    (BOOLS, Call::Set(2, Put::Num(5)), Wanted::Flag(true)),
    (BOOLS, Call::Set(1, Put::Num(-5)), Wanted::Flag(false)),
    (BOOLS, Call::Set(1, Put::Nil), Wanted::Damaged(1, 0)),
    (STRINGS, Call::Get(0), Wanted::Nil),
    (STRINGS, Call::Get(1), Wanted::Object(TEXT)),
    (STRINGS, Call::Get(2), Wanted::Object(STRINGS)),
    (STRINGS, Call::Get(3), Wanted::Trap(3)),
    (STRINGS, Call::Number(1), Wanted::Number(None)),
    (STRINGS, Call::Low, Wanted::Num(0)),
    (STRINGS, Call::High, Wanted::Num(2)),
    (STRINGS, Call::Set(1, Put::Nil), Wanted::Nil),
    (STRINGS, Call::Set(0, Put::Num(1)), Wanted::Damaged(0, 1)),
    (STRINGS, Call::Set(-1, Put::Nil), Wanted::Trap(3)),
    (NO_INT, Call::Get(1), Wanted::Damaged(1 << 40, 1 << 31)),
    (NO_INT, Call::Get(2), Wanted::Num(3)),
    (NO_INT, Call::Number(2), Wanted::Number(Some(3))),
    (NO_INT, Call::Set(1, Put::Num(6)), Wanted::Num(6)),
    (NO_BOOL, Call::Get(1), Wanted::Damaged(2, 2)),
    (NO_BOUND, Call::Get(1), Wanted::Damaged(1 << 33, 1 << 31)),
    (EMPTY, Call::Get(1), Wanted::Damaged(0, 1 << 20)),
    (EMPTY, Call::High, Wanted::Damaged(0, 1 << 20)),
    (TEXT, Call::Get(1), Wanted::Damaged(1, 3)),
];

// The value that is put.
fn value_of(put: Put) -> Value
    ensures { (here : Heap) → IsNear here result }
{
    match put {
        Put::Num(z) => Value::Num(z),
        Put::Flag(flag) => Value::Flag(flag),
        Put::Nil => Value::Ref(None),
    }
}

fn get(
    objects: &mut Objects,
    vault: &mut MemoryVault,
    pid: u64,
    at: i32,
) -> Result<Given, SwizzleFault>
    requires { vault.old.alive ≡ true }
    ensures { OnOk result (vault.new.alive ≡ true) }
{
    let vector = fetch(objects, vault, pid)?;
    match objects.get_element(vault, vector, at) {
        Ok(value) => Ok(Given::Value(value)),
        Err(OpFault::Trap(trap)) => Ok(Given::Trap(trap as u32)),
        Err(OpFault::Swizzle(fault)) => Err(fault),
    }
}

fn number(
    objects: &mut Objects,
    vault: &mut MemoryVault,
    pid: u64,
    at: i32,
) -> Result<Given, SwizzleFault>
    requires { vault.old.alive ≡ true }
    ensures { OnOk result (vault.new.alive ≡ true) }
{
    let got = get(objects, vault, pid, at)?;
    let vector = fetch(objects, vault, pid)?;
    match got {
        Given::Value(_) => Ok(Given::Number(objects.element_number::<MemoryVault>(vector, at))),
        other => Ok(other),
    }
}

fn set(
    objects: &mut Objects,
    vault: &mut MemoryVault,
    pid: u64,
    at: i32,
    put: Put,
) -> Result<Given, SwizzleFault>
    requires { vault.old.alive ≡ true }
    ensures { OnOk result (vault.new.alive ≡ true) }
{
    let vector = fetch(objects, vault, pid)?;
    match objects.set_element(vault, vector, at, value_of(put)) {
        Ok(()) => get(objects, vault, pid, at),
        Err(OpFault::Trap(trap)) => Ok(Given::Trap(trap as u32)),
        Err(OpFault::Swizzle(fault)) => Err(fault),
    }
}

// The lower bound of a vector, or the upper one.
fn bound(
    objects: &mut Objects,
    vault: &mut MemoryVault,
    pid: u64,
    is_low: bool,
) -> Result<Given, SwizzleFault>
    requires { vault.old.alive ≡ true }
    ensures { OnOk result (vault.new.alive ≡ true) }
{
    let vector = fetch(objects, vault, pid)?;
    let told = if is_low {
        objects.lower_bound(vault, vector)
    } else {
        objects.upper_bound(vault, vector)
    };
    match told {
        Ok(z) => Ok(Given::Value(Value::Num(z))),
        Err(OpFault::Trap(trap)) => Ok(Given::Trap(trap as u32)),
        Err(OpFault::Swizzle(fault)) => Err(fault),
    }
}

// What a call gives.
fn called(
    objects: &mut Objects,
    vault: &mut MemoryVault,
    pid: u64,
    call: Call,
) -> Result<Given, SwizzleFault>
    requires { vault.old.alive ≡ true }
    ensures { OnOk result (vault.new.alive ≡ true) }
{
    match call {
        Call::Get(at) => get(objects, vault, pid, at),
        Call::Number(at) => number(objects, vault, pid, at),
        Call::Set(at, put) => set(objects, vault, pid, at, put),
        Call::Low => bound(objects, vault, pid, true),
        Call::High => bound(objects, vault, pid, false),
    }
}

// Whether that is what it must give.
fn is_wanted(
    objects: &mut Objects,
    vault: &mut MemoryVault,
    given: Given,
    wanted: Wanted,
) -> Result<bool, SwizzleFault>
    requires { vault.old.alive ≡ true }
    ensures { OnOk result (vault.new.alive ≡ true) }
{
    match wanted {
        Wanted::Num(z) => Ok(given == Given::Value(Value::Num(z))),
        Wanted::Flag(flag) => Ok(given == Given::Value(Value::Flag(flag))),
        Wanted::Nil => Ok(given == Given::Value(Value::Ref(None))),
        Wanted::Object(pid) => match fetch(objects, vault, pid) {
            Ok(at) => Ok(given == Given::Value(Value::Ref(Some(at)))),
            Err(fault) => Err(fault),
        },
        Wanted::Number(z) => Ok(given == Given::Number(z)),
        Wanted::Trap(trap) => Ok(given == Given::Trap(trap)),
        Wanted::Damaged(..) => Ok(false),
    }
}

// Whether the vector was to be found damaged so.
fn is_damage(pid: u64, fault: SwizzleFault, wanted: Wanted) -> bool {
    match wanted {
        Wanted::Damaged(found, wanted) => {
            fault
                == SwizzleFault::Vault(VaultFault::Damaged {
                    at: pid,
                    found,
                    wanted,
                })
        }
        _ => false,
    }
}

// Whether a call gives what it must, and again.
fn gives(objects: &mut Objects, vault: &mut MemoryVault, row: &Row) -> Result<bool, SwizzleFault>
    requires { vault.old.alive ≡ true }
    ensures { OnOk result (vault.new.alive ≡ true) }
{
    let (pid, call, wanted) = *row;
    let first = called(objects, vault, pid, call)?;
    let is_first = is_wanted(objects, vault, first, wanted)?;
    let second = called(objects, vault, pid, call)?;
    let is_second = is_wanted(objects, vault, second, wanted)?;
    Ok(is_first && is_second)
}

// Whether it does so in a new area, over a new store.
fn gives_anew(alloc: Global, row: &Row) -> Result<bool, Fail> {
    let mut vault = store(alloc)?;
    let mut objects = Objects::new(alloc, 200)?;
    match gives(&mut objects, &mut vault, row) {
        Ok(right) => Ok(right),
        Err(fault) => Ok(is_damage(row.0, fault, row.2)),
    }
}

#[test]
fn gives_what_a_vector_holds(rt: HostRuntime) -> Result<(), Fail> {
    for (at, row) in ROWS.iter().enumerate() {
        let right = gives_anew(rt.alloc(), row)?;
        assert!(rt; right, "row {at}");
    }
    Ok(())
}
