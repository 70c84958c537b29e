//! Fields of stored structures, and their classes. Each call is made twice in a new area: what is looked up isn't known at first, and then it is.
ghost use Rattle.std.specs.Prelude.{◌≡◌, true, OnOk};

use crate::store::{CODE, COPY, FIRST, Given, OTHER, class, fetch, field, store, write};
use memory_vault::memory::MemoryVault;
use memory_vault::obj_layout::vault::VaultFault;
use objects::Value;
use objects::objects::Objects;
use objects::swizzle::fault::SwizzleFault;
use std::alloc::Global;
use std::test::Fail;

// What a call asks, of the class of a constant.
#[derive(Clone, Copy)]
enum Call {
    /// The field of a number.
    Field(u32),
    /// To write a number to it.
    Write(u32, i32),
    Class,
}

// What it must give.
#[derive(Clone, Copy)]
enum Wanted {
    Num(i32),
    Flag(bool),
    Nil,
    /// The object of a PID.
    Object(u64),
    Done,
    Trap(u32),
    /// The code object is damaged.
    Damaged { found: u64, wanted: u64 },
}

// A row: the PID of an object, or 0 for nil, the number of a constant, what is asked and what must be given.
struct Row {
    pid: u64,
    constant: u32,
    call: Call,
    wanted: Wanted,
}

const ROWS: [Row; 34] = [
    Row {
        pid: FIRST,
        constant: 0,
        call: Call::Field(0),
        wanted: Wanted::Num(7),
    },
    Row {
        pid: FIRST,
        constant: 0,
        call: Call::Field(1),
        wanted: Wanted::Flag(true),
    },
    Row {
        pid: FIRST,
        constant: 0,
        call: Call::Field(2),
        wanted: Wanted::Nil,
    },
    Row {
        pid: COPY,
        constant: 0,
        call: Call::Field(0),
        wanted: Wanted::Num(8),
    },
    Row {
        pid: COPY,
        constant: 0,
        call: Call::Field(1),
        wanted: Wanted::Flag(false),
    },
    Row {
        pid: COPY,
        constant: 0,
        call: Call::Field(2),
        wanted: Wanted::Object(FIRST),
    },
    Row {
        pid: OTHER,
        constant: 1,
        call: Call::Field(0),
        wanted: Wanted::Object(OTHER),
    },
    Row {
        pid: OTHER,
        constant: 1,
        call: Call::Field(1),
        wanted: Wanted::Num(5),
    },
    Row {
        pid: OTHER,
        constant: 0,
        call: Call::Field(0),
        wanted: Wanted::Trap(5),
    },
    Row {
        pid: FIRST,
        constant: 1,
        call: Call::Field(0),
        wanted: Wanted::Trap(5),
    },
    Row {
        pid: COPY,
        constant: 1,
        call: Call::Field(1),
        wanted: Wanted::Trap(5),
    },
    Row {
        pid: CODE,
        constant: 0,
        call: Call::Field(0),
        wanted: Wanted::Trap(5),
    },
    Row {
        pid: 1,
        constant: 0,
        call: Call::Field(0),
        wanted: Wanted::Trap(5),
    },
    Row {
        pid: 0,
        constant: 0,
        call: Call::Field(0),
        wanted: Wanted::Trap(4),
    },
    Row {
        pid: FIRST,
        constant: 0,
        call: Call::Field(3),
        wanted: Wanted::Damaged {
            found: 3,
            wanted: 3,
        },
    },
    Row {
        pid: 0,
        constant: 1,
        call: Call::Field(2),
        wanted: Wanted::Damaged {
            found: 2,
            wanted: 2,
        },
    },
    Row {
        pid: FIRST,
        constant: 2,
        call: Call::Field(0),
        wanted: Wanted::Damaged {
            found: 6,
            wanted: 1,
        },
    },
    Row {
        pid: FIRST,
        constant: 3,
        call: Call::Field(0),
        wanted: Wanted::Damaged {
            found: 3,
            wanted: 3,
        },
    },
    Row {
        pid: FIRST,
        constant: 0,
        call: Call::Write(0, -1),
        wanted: Wanted::Done,
    },
    Row {
        pid: FIRST,
        constant: 0,
        call: Call::Write(1, 0),
        wanted: Wanted::Done,
    },
    Row {
        pid: COPY,
        constant: 0,
        call: Call::Write(0, 2),
        wanted: Wanted::Done,
    },
    Row {
        pid: OTHER,
        constant: 1,
        call: Call::Write(1, 2),
        wanted: Wanted::Done,
    },
    Row {
        pid: OTHER,
        constant: 0,
        call: Call::Write(0, 2),
        wanted: Wanted::Trap(5),
    },
    Row {
        pid: 0,
        constant: 0,
        call: Call::Write(0, 2),
        wanted: Wanted::Trap(4),
    },
    Row {
        pid: FIRST,
        constant: 0,
        call: Call::Write(2, 2),
        wanted: Wanted::Damaged {
            found: 2,
            wanted: 3,
        },
    },
    Row {
        pid: FIRST,
        constant: 0,
        call: Call::Write(3, 2),
        wanted: Wanted::Damaged {
            found: 3,
            wanted: 3,
        },
    },
    Row {
        pid: FIRST,
        constant: 3,
        call: Call::Write(0, 2),
        wanted: Wanted::Damaged {
            found: 3,
            wanted: 3,
        },
    },
    Row {
        pid: FIRST,
        constant: 0,
        call: Call::Class,
        wanted: Wanted::Flag(true),
    },
    Row {
        pid: COPY,
        constant: 0,
        call: Call::Class,
        wanted: Wanted::Flag(true),
    },
    Row {
        pid: OTHER,
        constant: 0,
        call: Call::Class,
        wanted: Wanted::Flag(false),
    },
    Row {
        pid: OTHER,
        constant: 1,
        call: Call::Class,
        wanted: Wanted::Flag(true),
    },
    Row {
        pid: 0,
        constant: 1,
        call: Call::Class,
        wanted: Wanted::Flag(false),
    },
    Row {
        pid: CODE,
        constant: 0,
        call: Call::Class,
        wanted: Wanted::Flag(false),
    },
    Row {
        pid: FIRST,
        constant: 2,
        call: Call::Class,
        wanted: Wanted::Damaged {
            found: 6,
            wanted: 1,
        },
    },
];

// What a call gives.
fn called(objects: &mut Objects, vault: &mut MemoryVault, row: &Row) -> Result<Given, SwizzleFault>
    requires { vault.old.alive ≡ true }
    ensures { OnOk result (vault.new.alive ≡ true) }
{
    match row.call {
        Call::Field(number) => field(objects, vault, row.pid, row.constant, number),
        Call::Write(number, z) => write(objects, vault, row.pid, row.constant, number, z),
        Call::Class => class(objects, vault, row.pid, row.constant),
    }
}

// Whether that is what it must give.
fn is_wanted(
    objects: &mut Objects,
    vault: &mut MemoryVault,
    given: Given,
    wanted: Wanted,
) -> Result<bool, SwizzleFault>
    requires { vault.old.alive ≡ true }
    ensures { OnOk result (vault.new.alive ≡ true) }
{
    match wanted {
        Wanted::Num(z) => Ok(given == Given::Value(Value::Num(z))),
        Wanted::Flag(flag) => Ok(given == Given::Value(Value::Flag(flag))),
        Wanted::Nil => Ok(given == Given::Value(Value::Ref(None))),
        Wanted::Object(pid) => match fetch(objects, vault, pid) {
            Ok(at) => Ok(given == Given::Value(Value::Ref(Some(at)))),
            Err(fault) => Err(fault),
        },
        Wanted::Done => Ok(given == Given::Done),
        Wanted::Trap(number) => Ok(given == Given::Trap(number)),
        Wanted::Damaged { .. } => Ok(false),
    }
}

// Whether the code object was to be found damaged so.
fn is_damage(fault: SwizzleFault, wanted: Wanted) -> bool {
    match wanted {
        Wanted::Damaged { found, wanted } => {
            fault
                == SwizzleFault::Vault(VaultFault::Damaged {
                    at: CODE,
                    found,
                    wanted,
                })
        }
        _ => false,
    }
}

// Whether a call gives what it must, and again.
fn gives(objects: &mut Objects, vault: &mut MemoryVault, row: &Row) -> Result<bool, SwizzleFault>
    requires { vault.old.alive ≡ true }
    ensures { OnOk result (vault.new.alive ≡ true) }
{
    let first = called(objects, vault, row)?;
    let is_first = is_wanted(objects, vault, first, row.wanted)?;
    let second = called(objects, vault, row)?;
    let is_second = is_wanted(objects, vault, second, row.wanted)?;
    Ok(is_first && is_second)
}

// Whether it does so in a new area, over a new store.
fn gives_anew(alloc: Global, row: &Row) -> Result<bool, Fail> {
    let mut vault = store(alloc)?;
    let mut objects = Objects::new(alloc, 200)?;
    match gives(&mut objects, &mut vault, row) {
        Ok(right) => Ok(right),
        Err(fault) => Ok(is_damage(fault, row.wanted)),
    }
}

#[test]
fn gives_what_a_store_holds(rt: HostRuntime) -> Result<(), Fail> {
    for (at, row) in ROWS.iter().enumerate() {
        let right = gives_anew(rt.alloc(), row)?;
        assert!(rt; right, "row {at}");
    }
    Ok(())
}
