//! No object is there.
ghost use Rattle.std.specs.Prelude.{◌≡◌, true, IfOk};
ghost use Rattle.no_store.specs.obj_layout.Stored.{IsHeaded};

use memory_host::MemoryHost;
use no_store::NoStore;
use no_store::obj_layout::vault::{Vault, VaultFault};
use std::alloc::{AllocError, Global};
use std::test::Fail;

/// PIDs, at each of which there is no object.
const PIDS: [u64; 4] = [0, 1, 2, u64::MAX];

/// A text with no byte, in five words.
fn text() -> [u64; 5]
    ensures { IsHeaded result }
{
    [1, 0, 1, 0, 0]
}

fn store(alloc: Global) -> Result<NoStore<MemoryHost>, AllocError>
    ensures { IfOk result (λ vault. vault.alive ≡ true) }
{
    let host = MemoryHost::new(alloc, b"", &[], 9, 4096)?;
    Ok(NoStore::new(host))
}

// Words of any number fit, since no object is there.
fn fetch(vault: &mut NoStore<MemoryHost>, pid: u64, into: &mut [u64]) -> Result<(), VaultFault>
    requires { vault.old.alive ≡ true }
{
    vault.holds_nothing();
    vault.fetch(pid, into)
}

#[test]
fn begins_with_no_object(rt: HostRuntime) -> Result<(), Fail> {
    let vault = store(rt.alloc())?;
    vault.holds_word_0();
    assert_eq!(rt; vault.used(), 1);
    assert_eq!(rt; vault.capacity(), 0);
    assert_eq!(rt; vault.directory(), 0);
    assert!(rt; vault.is_alive());
    Ok(())
}

#[test]
fn each_object_is_damaged(rt: HostRuntime) -> Result<(), Fail> {
    for pid in PIDS {
        let damaged = VaultFault::Damaged {
            at: pid,
            found: pid,
            wanted: 1,
        };
        let mut vault = store(rt.alloc())?;
        assert_eq!(rt; vault.length(pid), Err(damaged));
        assert!(rt; !vault.is_alive());
        let mut vault = store(rt.alloc())?;
        assert_eq!(rt; vault.overwrite(pid, &text()), Err(damaged));
        assert!(rt; !vault.is_alive());
    }
    Ok(())
}

#[test]
fn none_is_fetched(rt: HostRuntime) -> Result<(), Fail> {
    for pid in PIDS {
        let mut vault = store(rt.alloc())?;
        let mut into = [9; 5];
        let damaged = VaultFault::Damaged {
            at: pid,
            found: pid,
            wanted: 1,
        };
        assert_eq!(rt; fetch(&mut vault, pid, &mut into), Err(damaged));
        assert_eq!(rt; into, [9; 5]);
        assert!(rt; !vault.is_alive());
    }
    Ok(())
}

#[test]
fn none_is_stored(rt: HostRuntime) -> Result<(), Fail> {
    let mut vault = store(rt.alloc())?;
    let full = VaultFault::Full {
        used: 1,
        wanted: 5,
        capacity: 0,
    };
    assert_eq!(rt; vault.append(&text()), Err(full));
    assert!(rt; !vault.is_alive());
    Ok(())
}

#[test]
fn settles_without_a_directory(rt: HostRuntime) -> Result<(), Fail> {
    let mut vault = store(rt.alloc())?;
    assert_eq!(rt; vault.settle(0), Ok(()));
    assert_eq!(rt; vault.directory(), 0);
    assert!(rt; vault.host().told_bytes().is_empty());
    assert!(rt; vault.is_alive());
    Ok(())
}
