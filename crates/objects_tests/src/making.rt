//! A structure of a stored class, made and read again.
ghost use Rattle.std.specs.Prelude.{◌≡◌, true, IfOk, OnOk};
ghost use Rattle.objects.specs.swizzle.Heap.{IsHeld};

use crate::store::{CODE, fetch, store};
use memory_vault::memory::MemoryVault;
use objects::objects::Objects;
use objects::{OpFault, Value};
use std::alloc::Global;
use std::test::Fail;

// A new structure of the first class.
fn make(objects: &mut Objects, vault: &mut MemoryVault) -> Result<u32, OpFault>
    requires { vault.old.alive ≡ true }
    ensures alive { OnOk result (vault.new.alive ≡ true) }
    ensures held { IfOk result (IsHeld objects.new) }
{
    let code = match fetch(objects, vault, CODE) {
        Ok(code) => code,
        Err(fault) => return Err(OpFault::Swizzle(fault)),
    };
    let fields = [Value::Num(-3), Value::Flag(true), Value::Ref(None)];
    objects.make_structure(vault, code, 0, &fields)
}

// A field of an object, by the first class.
fn read(
    objects: &mut Objects,
    vault: &mut MemoryVault,
    code: u32,
    object: u32,
    field: u32,
) -> Option<Value>
    requires alive { vault.old.alive ≡ true }
    requires code { IsHeld objects.old code }
    requires object { IsHeld objects.old object }
{
    match objects.get_field(vault, Some(object), code, 0, field) {
        Ok(value) => Some(value),
        Err(_) => None,
    }
}

// The same, where the code object must be fetched first.
fn fetch_and_read(
    objects: &mut Objects,
    vault: &mut MemoryVault,
    object: u32,
    field: u32,
) -> Option<Value>
    requires alive { vault.old.alive ≡ true }
    requires object { IsHeld objects.old object }
{
    match fetch(objects, vault, CODE) {
        Ok(code) => read(objects, vault, code, object, field),
        Err(_) => None,
    }
}

// What a field of a new structure gives.
fn made_field(alloc: Global, field: u32) -> Result<Option<Value>, Fail> {
    let mut vault = store(alloc)?;
    let mut objects = Objects::new(alloc, 200)?;
    match make(&mut objects, &mut vault) {
        Ok(object) => Ok(fetch_and_read(&mut objects, &mut vault, object, field)),
        Err(_) => Ok(None),
    }
}

#[test]
fn makes_a_structure(rt: HostRuntime) -> Result<(), Fail> {
    let wanted = [Value::Num(-3), Value::Flag(true), Value::Ref(None)];
    for (field, value) in wanted.iter().enumerate() {
        let found = made_field(rt.alloc(), field as u32)?;
        assert!(rt; found == Some(*value), "field {field}");
    }
    Ok(())
}
