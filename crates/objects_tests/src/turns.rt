//! Calls in turn over one area: structures of both classes and of both texts, written and read again.
ghost use Rattle.std.specs.Prelude.{◌≡◌, true, OnOk};

use crate::store::{COPY, FIRST, Given, OTHER, field, store, write};
use memory_vault::memory::MemoryVault;
use objects::Value;
use objects::objects::Objects;
use objects::swizzle::fault::SwizzleFault;
use std::alloc::Global;
use std::test::Fail;

// A row: the PID of an object, the number of a constant, that of a field, a number that is written first, and what the field must give then.
struct Turn {
    pid: u64,
    constant: u32,
    field: u32,
    written: Option<i32>,
    wanted: Given,
}

const TURNS: [Turn; 14] = [
    Turn {
        pid: FIRST,
        constant: 0,
        field: 0,
        written: None,
        wanted: Given::Value(Value::Num(7)),
    },
    Turn {
        pid: COPY,
        constant: 0,
        field: 0,
        written: None,
        wanted: Given::Value(Value::Num(8)),
    },
    Turn {
        pid: OTHER,
        constant: 1,
        field: 1,
        written: None,
        wanted: Given::Value(Value::Num(5)),
    },
    Turn {
        pid: FIRST,
        constant: 0,
        field: 0,
        written: Some(-70),
        wanted: Given::Value(Value::Num(-70)),
    },
    Turn {
        pid: COPY,
        constant: 0,
        field: 0,
        written: None,
        wanted: Given::Value(Value::Num(8)),
    },
    Turn {
        pid: COPY,
        constant: 0,
        field: 0,
        written: Some(80),
        wanted: Given::Value(Value::Num(80)),
    },
    Turn {
        pid: FIRST,
        constant: 0,
        field: 0,
        written: None,
        wanted: Given::Value(Value::Num(-70)),
    },
    Turn {
        pid: FIRST,
        constant: 0,
        field: 1,
        written: Some(0),
        wanted: Given::Value(Value::Flag(false)),
    },
    Turn {
        pid: FIRST,
        constant: 0,
        field: 1,
        written: Some(3),
        wanted: Given::Value(Value::Flag(true)),
    },
    Turn {
        pid: COPY,
        constant: 0,
        field: 1,
        written: None,
        wanted: Given::Value(Value::Flag(false)),
    },
    Turn {
        pid: OTHER,
        constant: 1,
        field: 1,
        written: Some(50),
        wanted: Given::Value(Value::Num(50)),
    },
    Turn {
        pid: OTHER,
        constant: 0,
        field: 1,
        written: None,
        wanted: Given::Trap(5),
    },
    Turn {
        pid: OTHER,
        constant: 1,
        field: 1,
        written: None,
        wanted: Given::Value(Value::Num(50)),
    },
    Turn {
        pid: FIRST,
        constant: 0,
        field: 0,
        written: None,
        wanted: Given::Value(Value::Num(-70)),
    },
];

// What a field gives after a number was written to it, if one was.
fn take_one(
    objects: &mut Objects,
    vault: &mut MemoryVault,
    turn: &Turn,
) -> Result<Given, SwizzleFault>
    requires { vault.old.alive ≡ true }
    ensures { OnOk result (vault.new.alive ≡ true) }
{
    write_some(objects, vault, turn)?;
    field(objects, vault, turn.pid, turn.constant, turn.field)
}

fn write_some(
    objects: &mut Objects,
    vault: &mut MemoryVault,
    turn: &Turn,
) -> Result<(), SwizzleFault>
    requires { vault.old.alive ≡ true }
    ensures { OnOk result (vault.new.alive ≡ true) }
{
    if let Some(z) = turn.written {
        write(objects, vault, turn.pid, turn.constant, turn.field, z)?;
    }
    Ok(())
}

// Whether all turns give what they must.
fn take(alloc: Global) -> Result<bool, Fail> {
    let mut vault = store(alloc)?;
    let mut objects = Objects::new(alloc, 200)?;
    for turn in &TURNS {
        match take_one(&mut objects, &mut vault, turn) {
            Ok(given) => {
                if given != turn.wanted {
                    return Ok(false);
                }
            }
            Err(_) => return Ok(false),
        }
    }
    Ok(true)
}

#[test]
fn takes_turns(rt: HostRuntime) -> Result<(), Fail> {
    let right = take(rt.alloc())?;
    assert!(rt; right, "a turn");
    Ok(())
}
