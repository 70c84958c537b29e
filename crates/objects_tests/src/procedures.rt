//! Bodies of stored procedures, in turn over one area: what is known is forgotten where the next one is damaged. Each is asked of a new store, since
//! nothing is said of one after a fault.
ghost use Rattle.std.specs.Prelude.{◌≡◌, true, IfOk, OnOk};
ghost use Rattle.objects.specs.proc_values.Reading.{IsPlaceOf};

use crate::procedure_store::{
    BARE, CODE, NO_CODE, ONE_SLOT, SCOPE, SCOPED, TEXT, TEXT_FOR_CODE, TEXT_FOR_SCOPE, store,
};
use crate::store::fetch;
use memory_vault::memory::MemoryVault;
use memory_vault::obj_layout::vault::VaultFault;
use objects::body::Body;
use objects::objects::Objects;
use objects::swizzle::fault::SwizzleFault;
use std::alloc::Global;
use std::test::Fail;

// What the body of a procedure must be.
#[derive(Clone, Copy)]
enum Wanted {
    /// Of the code object, in no scope.
    Bare,
    /// Of the code object, in the scope.
    Scoped,
    /// The object at this PID is damaged.
    Damaged { at: u64, found: u64, wanted: u64 },
}

// A row: the PID of a procedure, and what its body must be.
struct Row {
    pid: u64,
    wanted: Wanted,
}

const ROWS: [Row; 16] = [
    Row {
        pid: BARE,
        wanted: Wanted::Bare,
    },
    Row {
        pid: BARE,
        wanted: Wanted::Bare,
    },
    Row {
        pid: SCOPED,
        wanted: Wanted::Scoped,
    },
    Row {
        pid: BARE,
        wanted: Wanted::Bare,
    },
    Row {
        pid: SCOPED,
        wanted: Wanted::Scoped,
    },
    Row {
        pid: NO_CODE,
        wanted: Wanted::Damaged {
            at: NO_CODE,
            found: 0,
            wanted: 1,
        },
    },
    Row {
        pid: SCOPED,
        wanted: Wanted::Scoped,
    },
    Row {
        pid: TEXT_FOR_CODE,
        wanted: Wanted::Damaged {
            at: TEXT,
            found: 1,
            wanted: 6,
        },
    },
    Row {
        pid: TEXT_FOR_CODE,
        wanted: Wanted::Damaged {
            at: TEXT,
            found: 1,
            wanted: 6,
        },
    },
    Row {
        pid: BARE,
        wanted: Wanted::Bare,
    },
    Row {
        pid: TEXT_FOR_SCOPE,
        wanted: Wanted::Damaged {
            at: TEXT,
            found: 1,
            wanted: 4,
        },
    },
    Row {
        pid: ONE_SLOT,
        wanted: Wanted::Damaged {
            at: ONE_SLOT,
            found: 1,
            wanted: 2,
        },
    },
    Row {
        pid: TEXT,
        wanted: Wanted::Damaged {
            at: TEXT,
            found: 1,
            wanted: 5,
        },
    },
    Row {
        pid: SCOPE,
        wanted: Wanted::Damaged {
            at: SCOPE,
            found: 4,
            wanted: 5,
        },
    },
    Row {
        pid: SCOPED,
        wanted: Wanted::Scoped,
    },
    Row {
        pid: BARE,
        wanted: Wanted::Bare,
    },
];

// The body of the procedure of a PID.
fn body(objects: &mut Objects, vault: &mut MemoryVault, pid: u64) -> Result<Body, SwizzleFault>
    requires { vault.old.alive ≡ true }
    ensures alive { OnOk result (vault.new.alive ≡ true) }
    ensures place { IfOk result (λ body. IsPlaceOf objects.new body.code body.place) }
{
    let procedure = fetch(objects, vault, pid)?;
    objects.body_of(vault, procedure)
}

// Whether a body is that of the code object, in this scope.
fn is_body(body: Body, code: u32, scope: Option<u32>) -> bool {
    body.code == code
        && body.scope == scope
        && body.frame.nums == 3
        && body.frame.refs == 4
        && body.frame.num_params == 1
        && body.frame.ref_params == 2
        && body.place.count == 1
        && body.place.first.wrapping_sub(code) == 6
}

// Whether the body of a row's procedure is what it must be.
fn is_right(objects: &mut Objects, vault: &mut MemoryVault, row: &Row) -> Result<bool, SwizzleFault>
    requires { vault.old.alive ≡ true }
    ensures { OnOk result (vault.new.alive ≡ true) }
{
    let found = body(objects, vault, row.pid)?;
    let code = fetch(objects, vault, CODE)?;
    let scope = fetch(objects, vault, SCOPE)?;
    match row.wanted {
        Wanted::Bare => Ok(is_body(found, code, None)),
        Wanted::Scoped => Ok(is_body(found, code, Some(scope))),
        Wanted::Damaged { .. } => Ok(false),
    }
}

// Whether an object was to be found damaged so.
fn is_damage(fault: SwizzleFault, row: &Row) -> bool {
    match row.wanted {
        Wanted::Damaged { at, found, wanted } => {
            fault == SwizzleFault::Vault(VaultFault::Damaged { at, found, wanted })
        }
        _ => false,
    }
}

// Whether the body of a row's procedure is what it must be, over a new store.
fn is_right_anew(alloc: Global, objects: &mut Objects, row: &Row) -> Result<bool, Fail> {
    let mut vault = store(alloc)?;
    match is_right(objects, &mut vault, row) {
        Ok(right) => Ok(right),
        Err(fault) => Ok(is_damage(fault, row)),
    }
}

#[test]
fn gives_bodies(rt: HostRuntime) -> Result<(), Fail> {
    let mut objects = Objects::new(rt.alloc(), 200)?;
    for (at, row) in ROWS.iter().enumerate() {
        let right = is_right_anew(rt.alloc(), &mut objects, row)?;
        assert!(rt; right, "row {at}");
    }
    Ok(())
}

// Whether the code object has an instruction at its first byte, and none after it, and the PID that it is stored under.
fn reads_code(objects: &mut Objects, vault: &mut MemoryVault) -> Result<bool, SwizzleFault>
    requires { vault.old.alive ≡ true }
{
    let found = body(objects, vault, SCOPED)?;
    let first = objects.instr_within(found.code, found.place, 0);
    let second = objects.instr_within(found.code, found.place, 1);
    let width = match first {
        Some((_, next)) => next,
        None => 0,
    };
    Ok(width == 1 && second.is_none() && objects.pid_of(found.code) == CODE)
}

#[test]
fn reads_the_code_of_a_body(rt: HostRuntime) -> Result<(), Fail> {
    let mut vault = store(rt.alloc())?;
    let mut objects = Objects::new(rt.alloc(), 200)?;
    let right = reads_code(&mut objects, &mut vault).unwrap_or(false);
    assert!(rt; right, "the code");
    Ok(())
}
