//! Forms of fields of stored classes, and texts made of given bytes.
ghost use Rattle.std.specs.Prelude.{◌≡◌, true, IfOk};
ghost use Rattle.objects.specs.swizzle.Heap.{IsHeld};

use crate::store::{CODE, fetch, store};
use memory_vault::memory::MemoryVault;
use memory_vault::obj_layout::vault::VaultFault;
use objects::OpFault;
use objects::joint_ops::text_forms::forms::Form;
use objects::joint_ops::values::Sort;
use objects::objects::Objects;
use objects::swizzle::fault::SwizzleFault;
use std::alloc::Global;
use std::test::Fail;

// What the form of a field must be.
#[derive(Clone, Copy)]
enum Wanted {
    Form(Form),
    /// The code object is damaged.
    Damaged { found: u64, wanted: u64 },
}

// A row: the number of a constant, that of a field, and what its form must be.
struct Row {
    constant: u32,
    field: u32,
    wanted: Wanted,
}

const ROWS: [Row; 9] = [
    Row {
        constant: 0,
        field: 0,
        wanted: Wanted::Form(Form::Number),
    },
    Row {
        constant: 0,
        field: 1,
        wanted: Wanted::Form(Form::Flag),
    },
    Row {
        constant: 0,
        field: 2,
        wanted: Wanted::Form(Form::Reference),
    },
    Row {
        constant: 0,
        field: 3,
        wanted: Wanted::Damaged {
            found: 3,
            wanted: 3,
        },
    },
    Row {
        constant: 1,
        field: 0,
        wanted: Wanted::Form(Form::Reference),
    },
    Row {
        constant: 1,
        field: 1,
        wanted: Wanted::Form(Form::Number),
    },
    Row {
        constant: 1,
        field: 2,
        wanted: Wanted::Damaged {
            found: 2,
            wanted: 2,
        },
    },
    Row {
        constant: 2,
        field: 0,
        wanted: Wanted::Damaged {
            found: 6,
            wanted: 1,
        },
    },
    Row {
        constant: 3,
        field: 0,
        wanted: Wanted::Damaged {
            found: 3,
            wanted: 3,
        },
    },
];

// The form of a field of the class of a constant.
fn form(objects: &mut Objects, vault: &mut MemoryVault, row: &Row) -> Result<Form, SwizzleFault>
    requires { vault.old.alive ≡ true }
{
    let code = fetch(objects, vault, CODE)?;
    objects.field_form(vault, code, row.constant, row.field)
}

// Whether a form is one that was wanted.
fn is_form(form: Form, row: &Row) -> bool {
    match row.wanted {
        Wanted::Form(wanted) => form == wanted,
        Wanted::Damaged { .. } => false,
    }
}

// Whether the code object was to be found damaged so.
fn is_damage(fault: SwizzleFault, row: &Row) -> bool {
    match row.wanted {
        Wanted::Damaged { found, wanted } => {
            fault
                == SwizzleFault::Vault(VaultFault::Damaged {
                    at: CODE,
                    found,
                    wanted,
                })
        }
        Wanted::Form(_) => false,
    }
}

// Whether the form of a row's field is what it must be, over a new store.
fn is_right(alloc: Global, objects: &mut Objects, row: &Row) -> Result<bool, Fail> {
    let mut vault = store(alloc)?;
    match form(objects, &mut vault, row) {
        Ok(form) => Ok(is_form(form, row)),
        Err(fault) => Ok(is_damage(fault, row)),
    }
}

#[test]
fn tells_forms(rt: HostRuntime) -> Result<(), Fail> {
    let mut objects = Objects::new(rt.alloc(), 200)?;
    for (at, row) in ROWS.iter().enumerate() {
        let right = is_right(rt.alloc(), &mut objects, row)?;
        assert!(rt; right, "row {at}");
    }
    Ok(())
}

// Whether an object is a text of these bytes.
fn is_text(objects: &Objects, at: u32, bytes: &[u8]) -> bool
    requires { IsHeld objects.now at }
{
    match objects.sort_of::<MemoryVault>(Some(at)) {
        Sort::Text => objects.text_bytes::<MemoryVault>(at) == bytes,
        _ => false,
    }
}

#[test]
fn makes_texts_of_bytes(rt: HostRuntime) -> Result<(), Fail> {
    let mut objects = Objects::new(rt.alloc(), 20)?;
    let right = match objects.text_of_bytes::<MemoryVault>(b"a line") {
        Ok(at) => is_text(&objects, at, b"a line"),
        Err(_) => false,
    };
    assert!(rt; right, "the text");
    Ok(())
}

#[test]
fn refuses_texts_that_are_too_long(rt: HostRuntime) -> Result<(), Fail> {
    let mut bytes = Vec::new(rt.alloc());
    bytes.resize(65_536, b'x')?;
    let mut objects = Objects::new(rt.alloc(), 20)?;
    let is_trap = match objects.text_of_bytes::<MemoryVault>(&bytes) {
        Err(OpFault::Trap(trap)) => trap as u32 == 10,
        _ => false,
    };
    assert!(rt; is_trap, "too long");
    let is_full = match objects.text_of_bytes::<MemoryVault>(&bytes[1..]) {
        Err(OpFault::Swizzle(SwizzleFault::AreaFull { top, wanted, size })) => {
            top == 1 && wanted == 5 + 8192 && size == 21
        }
        _ => false,
    };
    assert!(rt; is_full, "no room");
    Ok(())
}
