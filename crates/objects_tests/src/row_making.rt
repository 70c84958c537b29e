//! Structures of stored classes, made of their rows and read again.
ghost use Rattle.std.specs.Prelude.{◌≡◌, ◌⊎◌, true, IfSome};
ghost use Rattle.objects.specs.swizzle.Heap.{IsHeld};
ghost use Rattle.objects.specs.Makes.{HasRows};

use crate::store::{CODE, FIRST, fetch, store};
use memory_vault::memory::MemoryVault;
use objects::Value;
use objects::class_rows::ClassRows;
use objects::objects::Objects;
use std::alloc::Global;
use std::test::Fail;

// A row: the number of a constant, the numbers of a structure of the class, whether it refers to nothing, a field, and what that must give. A structure
// that refers to something refers to the first stored one.
struct Row {
    constant: u32,
    nums: &'static [i32],
    is_nil: bool,
    field: u32,
    wanted: Wanted,
}

#[derive(Clone, Copy)]
enum Wanted {
    Num(i32),
    Flag(bool),
    Nil,
    First,
    /// The class has other rows.
    None,
}

const ROWS: [Row; 9] = [
    Row {
        constant: 0,
        nums: &[-3, 1],
        is_nil: true,
        field: 0,
        wanted: Wanted::Num(-3),
    },
    Row {
        constant: 0,
        nums: &[-3, 1],
        is_nil: true,
        field: 1,
        wanted: Wanted::Flag(true),
    },
    Row {
        constant: 0,
        nums: &[4, 0],
        is_nil: true,
        field: 1,
        wanted: Wanted::Flag(false),
    },
    Row {
        constant: 0,
        nums: &[-3, 1],
        is_nil: true,
        field: 2,
        wanted: Wanted::Nil,
    },
    Row {
        constant: 0,
        nums: &[-3, 1],
        is_nil: false,
        field: 2,
        wanted: Wanted::First,
    },
    Row {
        constant: 1,
        nums: &[9],
        is_nil: false,
        field: 0,
        wanted: Wanted::First,
    },
    Row {
        constant: 1,
        nums: &[9],
        is_nil: true,
        field: 0,
        wanted: Wanted::Nil,
    },
    Row {
        constant: 1,
        nums: &[9],
        is_nil: false,
        field: 1,
        wanted: Wanted::Num(9),
    },
    Row {
        constant: 1,
        nums: &[9, 9],
        is_nil: false,
        field: 1,
        wanted: Wanted::None,
    },
];

// A structure of a class with one reference; none where the class has other rows.
fn make(objects: &mut Objects, class: ClassRows, row: &Row, first: u32, code: u32) -> Option<u32>
    requires class { HasRows objects.old class }
    requires first { IsHeld objects.old first }
    requires code { IsHeld objects.old code }
    ensures held { IfSome result (IsHeld objects.new) }
    ensures code { IsHeld objects.new code }
{
    if row.nums.len() != class.fields.rows.nums as usize || class.fields.rows.refs != 1 {
        return None;
    }
    let to = word(row.is_nil, first);
    match objects.make_from::<MemoryVault>(class, row.nums, &[to]) {
        Ok(at) => Some(at),
        Err(_) => None,
    }
}

// The word of nothing, or that of an object.
fn word(is_nil: bool, first: u32) -> u32
    ensures { (result ≡ 0) ⊎ (result ≡ first) }
{
    if is_nil { 0 } else { first }
}

// Whether the field of a new structure is what it must be.
fn is_right(
    objects: &mut Objects,
    vault: &mut MemoryVault,
    code: u32,
    row: &Row,
    first: u32,
) -> bool
    requires alive { vault.old.alive ≡ true }
    requires code { IsHeld objects.old code }
    requires first { IsHeld objects.old first }
{
    let class = match objects.class_rows(vault, code, row.constant) {
        Ok(Some(class)) => class,
        _ => return false,
    };
    let at = match make(objects, class, row, first, code) {
        Some(at) => at,
        None => return matches!(row.wanted, Wanted::None),
    };
    match objects.get_field(vault, Some(at), code, row.constant, row.field) {
        Ok(value) => is_wanted(value, row.wanted, first),
        Err(_) => false,
    }
}

fn is_wanted(value: Value, wanted: Wanted, first: u32) -> bool {
    match wanted {
        Wanted::Num(z) => value == Value::Num(z),
        Wanted::Flag(flag) => value == Value::Flag(flag),
        Wanted::Nil => value == Value::Ref(None),
        Wanted::First => value == Value::Ref(Some(first)),
        Wanted::None => false,
    }
}

// The same over a new store, where the code object and the first structure must be fetched.
fn is_right_anew(alloc: Global, row: &Row) -> Result<bool, Fail> {
    let mut vault = store(alloc)?;
    let mut objects = Objects::new(alloc, 200)?;
    match fetched(&mut objects, &mut vault) {
        Some((code, first)) => Ok(is_right(&mut objects, &mut vault, code, row, first)),
        None => Ok(false),
    }
}

// The code object and the first structure.
fn fetched(objects: &mut Objects, vault: &mut MemoryVault) -> Option<(u32, u32)>
    requires alive { vault.old.alive ≡ true }
    ensures { IfSome result (λ both. IsHeld objects.new both.0 × IsHeld objects.new both.1 × (vault.new.alive ≡ true)) }
{
    let code = match fetch(objects, vault, CODE) {
        Ok(code) => code,
        Err(_) => return None,
    };
    match fetch(objects, vault, FIRST) {
        Ok(first) => Some((code, first)),
        Err(_) => None,
    }
}

#[test]
fn makes_structures_of_rows(rt: HostRuntime) -> Result<(), Fail> {
    for (at, row) in ROWS.iter().enumerate() {
        let right = is_right_anew(rt.alloc(), row)?;
        assert!(rt; right, "row {at}");
    }
    Ok(())
}
