//! What is output goes to the host, in order, and its faults come through.
ghost use Rattle.std.specs.Prelude.{◌≡◌, true};

use memory_host::MemoryHost;
use no_store::NoStore;
use no_store::obj_layout::vault::{Vault, VaultFault};
use std::test::Fail;

/// What is put after one another, the answer, and all the bytes output then. Call 2 of the host is to fail, and outputs the first half.
const PUTS: [(&[&[u8]], Result<(), VaultFault>, &[u8]); 6] = [
    (&[], Ok(()), b""),
    (&[b""], Ok(()), b""),
    (&[b"one "], Ok(()), b"one "),
    (&[b"one ", b"two "], Ok(()), b"one two "),
    (
        &[b"one ", b"two ", b"three "],
        Err(VaultFault::Output),
        b"one two thr",
    ),
    (
        &[b"one ", b"", b"x", b"four"],
        Err(VaultFault::Output),
        b"one ",
    ),
];

fn put_all(vault: &mut NoStore<MemoryHost>, parts: &[&[u8]]) -> Result<(), VaultFault>
    requires { vault.old.alive ≡ true }
{
    for part in parts {
        vault.put(part)?;
    }
    Ok(())
}

#[test]
fn tells_in_order(rt: HostRuntime) -> Result<(), Fail> {
    for (parts, answer, told) in &PUTS {
        let host = MemoryHost::new(rt.alloc(), b"", &[2], 9, 4096)?;
        let mut vault = NoStore::new(host);
        assert_eq!(rt; put_all(&mut vault, parts), *answer);
        assert_eq!(rt; vault.host().told_bytes(), *told);
        assert_eq!(rt; vault.is_alive(), answer.is_ok());
    }
    Ok(())
}

#[test]
fn a_host_without_room(rt: HostRuntime) -> Result<(), Fail> {
    // The record of a call of two bytes and 64 more.
    let host = MemoryHost::new(rt.alloc(), b"", &[], 9, 66)?;
    let mut vault = NoStore::new(host);
    assert_eq!(rt; vault.put(b"abc"), Err(VaultFault::Output));
    assert!(rt; vault.host().told_bytes().is_empty());
    assert!(rt; !vault.is_alive());
    Ok(())
}
