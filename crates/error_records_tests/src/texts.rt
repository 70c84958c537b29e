//! The record of each fault by each call, and the texts in it.
ghost use Rattle.std.specs.Prelude.{◌≡◌, true};
ghost use Rattle.error_records.specs.joint_held.joint_ops.swizzle.Heap.{IsHeld};

use error_records::db_dir::fault::DirFault;
use error_records::joint_ops::obj_layout::kind::Kind;
use error_records::joint_ops::swizzle::swizzle::Swizzle;
use error_records::records::refuse;
use error_records::refusals::{Call, Refusal};
use memory_vault::memory::MemoryVault;
use std::alloc::Global;
use std::test::Fail;

// A row: why a call is refused, and the texts that are wanted of the fault.
struct Fault {
    why: Refusal,
    fault: &'static [u8],
    explain: &'static [u8],
}

const FAULTS: [Fault; 10] = [
    Fault {
        why: Refusal::Directory(DirFault::BadName),
        fault: b"bad name",
        explain: b"a name has 1 to 64 bytes",
    },
    Fault {
        why: Refusal::Directory(DirFault::BadPassword),
        fault: b"bad password",
        explain: b"a password has at most 64 bytes",
    },
    Fault {
        why: Refusal::Directory(DirFault::Exists),
        fault: b"exists",
        explain: b"a database has this name",
    },
    Fault {
        why: Refusal::Directory(DirFault::TooMany),
        fault: b"too many",
        explain: b"a volume holds 256 databases",
    },
    Fault {
        why: Refusal::Directory(DirFault::NoSuchDatabase),
        fault: b"no such database",
        explain: b"no database has this name",
    },
    Fault {
        why: Refusal::Directory(DirFault::Password),
        fault: b"password",
        explain: b"the password differs",
    },
    Fault {
        why: Refusal::Directory(DirFault::BadMode),
        fault: b"bad mode",
        explain: b"the mode is read or write",
    },
    Fault {
        why: Refusal::NotWritable,
        fault: b"not writable",
        explain: b"an assigned object's home is not open for writing",
    },
    Fault {
        why: Refusal::BusyWriter,
        fault: b"busy",
        explain: b"another session is writing",
    },
    Fault {
        why: Refusal::StaleStart,
        fault: b"stale",
        explain: b"the volume changed since this session began",
    },
];

const CALLS: [(Call, &[u8]); 3] = [
    (Call::Create, b"create.database"),
    (Call::Open, b"open.database"),
    (Call::Commit, b"commit"),
];

const CLASS: &[u8] = b"error.record(string error.context;string error.fault;string error.explain)";

// Whether an object refers in this slot to this text.
fn has_text(
    sw: &mut Swizzle,
    vault: &mut MemoryVault,
    object: u32,
    slot: u32,
    wanted: &[u8],
) -> bool
    requires alive { vault.old.alive ≡ true }
    requires held { IsHeld sw.old object }
{
    if slot >= sw.refs(object) {
        return false;
    }
    match sw.touch_slot(vault, object, slot) {
        Ok(Some(at)) => match sw.kind(at) {
            Kind::Text => sw.text(at) == wanted,
            _ => false,
        },
        _ => false,
    }
}

// Whether the record that a call answers is a structure of four references without a PID, of which this is the text in this slot.
fn answers(alloc: Global, by: Call, why: Refusal, slot: u32, wanted: &[u8]) -> Result<bool, Fail> {
    let mut vault = MemoryVault::new(alloc, 1)?;
    let mut sw = Swizzle::new(alloc, 200)?;
    match refuse(&mut sw, &vault, by, why) {
        Ok(record) => {
            let whole = sw.is_kind(record, Kind::Structure)
                && sw.refs(record) == 4
                && sw.nums(record) == 1
                && sw.pid(record) == 0;
            Ok(whole && has_text(&mut sw, &mut vault, record, slot, wanted))
        }
        Err(_) => Ok(false),
    }
}

#[test]
fn tells_each_fault_of_each_call(rt: HostRuntime) -> Result<(), Fail> {
    for row in &FAULTS {
        for call in &CALLS {
            let texts = [CLASS, call.1, row.fault, row.explain];
            for (slot, text) in texts.iter().enumerate() {
                let found = answers(rt.alloc(), call.0, row.why, slot as u32, text)?;
                assert!(rt; found, "{:?} {:?} {slot}", call.0, row.why);
            }
        }
    }
    Ok(())
}

#[test]
fn tells_no_other_text(rt: HostRuntime) -> Result<(), Fail> {
    let found = answers(rt.alloc(), Call::Open, Refusal::BusyWriter, 2, b"stale")?;
    assert!(rt; !found, "stale");
    Ok(())
}
