//! What each call answers where the device or the output fails, or the store is full.
ghost use Rattle.std.specs.Prelude.{true, ◌≡◌};

use crate::objects::short_text;
use memory_vault::memory::MemoryVault;
use memory_vault::obj_layout::vault::{Vault, VaultFault};
use std::test::Fail;

/// Whether it has no room for a second text after the first.
fn is_filled(vault: &mut MemoryVault) -> bool
    requires { vault.old.alive ≡ true }
{
    let full = VaultFault::Full {
        used: 6,
        wanted: 5,
        capacity: 10,
    };
    vault.append(&short_text(50)) == Ok(1)
        && vault.append(&short_text(60)) == Err(full)
        && vault.used() == 6
        && !vault.is_alive()
}

#[test]
fn answers_a_full_store_by_its_sum(rt: HostRuntime) -> Result<(), Fail> {
    let mut vault = MemoryVault::new(rt.alloc(), 10)?;
    assert!(rt; is_filled(&mut vault));
    Ok(())
}

/// Whether the second call fails.
fn fails_at_once(vault: &mut MemoryVault) -> bool
    requires { vault.old.alive ≡ true }
{
    vault.fail_from(1);
    vault.append(&short_text(50)) == Ok(1)
        && vault.length(1) == Err(VaultFault::Device)
        && vault.calls() == 2
        && !vault.is_alive()
}

#[test]
fn fails_from_a_call_on(rt: HostRuntime) -> Result<(), Fail> {
    let mut vault = MemoryVault::new(rt.alloc(), 10)?;
    assert!(rt; fails_at_once(&mut vault));
    Ok(())
}

/// Whether the device call of this number is answered by its fault.
fn is_answered_by_fault(vault: &mut MemoryVault, call: u32) -> bool
    requires { vault.old.alive ≡ true }
{
    let fault = VaultFault::Device;
    match call {
        0 => vault.append(&short_text(50)) == Err(fault),
        1 => vault.overwrite(1, &short_text(50)) == Err(fault),
        2 => vault.used() > 0 && vault.settle(0) == Err(fault),
        _ => vault.length(1) == Err(fault),
    }
}

/// Whether the device call of this number fails, and nothing else was done.
fn fails_at(vault: &mut MemoryVault, call: u32) -> bool
    requires { vault.old.alive ≡ true }
{
    vault.fail_from(vault.calls());
    is_answered_by_fault(vault, call)
        && vault.words() == [0].as_slice()
        && vault.calls() == 1
        && !vault.is_alive()
}

#[test]
fn fails_at_each_device_call(rt: HostRuntime) -> Result<(), Fail> {
    for call in 0..4 {
        let mut vault = MemoryVault::new(rt.alloc(), 10)?;
        assert!(rt; fails_at(&mut vault, call), "call {call}");
    }
    Ok(())
}

/// Whether bytes are put while the device fails, as far as there is room.
fn puts_alone(vault: &mut MemoryVault) -> bool
    requires { vault.old.alive ≡ true }
{
    vault.fail_from(0);
    vault.put(b"ab") == Ok(())
        && vault.put(b"cdef") == Err(VaultFault::Output)
        && vault.told() == b"ab".as_slice()
        && !vault.is_alive()
}

#[test]
fn puts_while_the_device_fails(rt: HostRuntime) -> Result<(), Fail> {
    let mut vault = MemoryVault::new(rt.alloc(), 5)?;
    assert!(rt; puts_alone(&mut vault));
    Ok(())
}
