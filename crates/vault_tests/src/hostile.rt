//! What each call answers at words that are no objects, cause by cause.
ghost use Rattle.std.specs.Prelude.{◌≡◌, true, IfOk};
ghost use Rattle.vault_tests.specs.Hostile.{HoldsNothing};

use crate::objects::{long_text, short_text};
use memory_vault::memory::MemoryVault;
use memory_vault::obj_layout::vault::{Vault, VaultFault};
use std::alloc::{AllocError, Global};
use std::test::Fail;

/// What is wrong at a PID: the number that is tested, and its bound. Word 1 begins no object, so that none is held.
const DAMAGED: [(u64, u64, u64); 14] = [
    // There is no PID 0, and there are 20 words.
    (0, 0, 1),
    (20, 20, 20),
    (u64::MAX, u64::MAX, 20),
    // Of four words the last isn't there.
    (17, 21, 20),
    (19, 23, 20),
    // Kinds 0 and 10.
    (1, 0, 9),
    (2, 10, 9),
    // Bit 16, and bit 31.
    (3, 1, 0),
    (4, 0x8000, 0),
    // 17 bytes with two number words.
    (5, 17, 16),
    // One word more than 2^31.
    (6, 0x8000_0001, 0x8000_0000),
    // The last word of seven isn't there.
    (14, 21, 20),
    (15, 0, 9),
    (18, 22, 20),
];

fn store(alloc: Global) -> Result<MemoryVault, AllocError>
    ensures { IfOk result HoldsNothing }
{
    let words = [
        0,
        0,
        10,
        0x0001_0001,
        0x8000_0001,
        1,
        0x7fff_fffb_0000_0003,
        0x0000_0011_0000_0002,
        2,
        1,
        0,
        1,
        0,
        77,
        1,
        0,
        3,
        0,
        0,
        0,
    ];
    MemoryVault::of_words(alloc, &words, 0, 30)
}

/// Fetches from a vault that holds nothing, so that words of any number fit.
fn fetch(vault: &mut MemoryVault, pid: u64, into: &mut [u64]) -> Result<(), VaultFault>
    requires { HoldsNothing vault.old }
{
    vault.fetch(pid, into)
}

/// Fetches from it with a device that fails.
fn fetch_failing(vault: &mut MemoryVault, pid: u64, into: &mut [u64]) -> Result<(), VaultFault>
    requires { HoldsNothing vault.old }
{
    vault.fail_from(vault.calls());
    vault.fetch(pid, into)
}

/// Whether the length of what is damaged at a PID is refused.
fn refuses_length(vault: &mut MemoryVault, at: u64, damaged: VaultFault) -> bool
    requires { vault.old.alive ≡ true }
{
    vault.length(at) == Err(damaged) && vault.calls() == 1 && !vault.is_alive()
}

#[test]
fn refuses_the_length(rt: HostRuntime) -> Result<(), Fail> {
    for (at, found, wanted) in DAMAGED {
        let mut vault = store(rt.alloc())?;
        let damaged = VaultFault::Damaged { at, found, wanted };
        assert!(rt; refuses_length(&mut vault, at, damaged), "at {at}");
    }
    let mut vault = store(rt.alloc())?;
    assert_eq!(rt; vault.length(9), Ok(5));
    Ok(())
}

/// Whether a vault that holds nothing refuses to fetch what is damaged at a PID.
fn refuses_fetch(vault: &mut MemoryVault, at: u64, damaged: VaultFault) -> bool
    requires { HoldsNothing vault.old }
{
    let mut into = [9; 5];
    fetch(vault, at, &mut into) == Err(damaged) && !vault.is_alive()
}

#[test]
fn refuses_to_fetch(rt: HostRuntime) -> Result<(), Fail> {
    for (at, found, wanted) in DAMAGED {
        let mut vault = store(rt.alloc())?;
        let damaged = VaultFault::Damaged { at, found, wanted };
        assert!(rt; refuses_fetch(&mut vault, at, damaged), "at {at}");
    }
    Ok(())
}

/// What is wrong with six words for the object of five at 9.
const OTHER_LENGTH: VaultFault = VaultFault::Damaged {
    at: 9,
    found: 5,
    wanted: 6,
};

/// Whether a vault that holds nothing refuses to fetch six words at 9.
fn refuses_to_fetch_six(vault: &mut MemoryVault) -> bool
    requires { HoldsNothing vault.old }
{
    let mut into = [9; 6];
    fetch(vault, 9, &mut into) == Err(OTHER_LENGTH)
}

/// Whether it gives the five words there.
fn fetches_five(vault: &mut MemoryVault) -> bool
    requires { HoldsNothing vault.old }
{
    let mut into = [9; 5];
    fetch(vault, 9, &mut into) == Ok(()) && into == [1, 0, 1, 0, 77]
}

#[test]
fn refuses_to_fetch_another_length(rt: HostRuntime) -> Result<(), Fail> {
    let mut vault = store(rt.alloc())?;
    assert!(rt; refuses_to_fetch_six(&mut vault));
    let mut vault = store(rt.alloc())?;
    assert!(rt; fetches_five(&mut vault));
    Ok(())
}

/// Whether it is refused to overwrite what is damaged at a PID.
fn refuses_overwrite(vault: &mut MemoryVault, at: u64, damaged: VaultFault) -> bool
    requires { vault.old.alive ≡ true }
{
    vault.overwrite(at, &short_text(50)) == Err(damaged) && !vault.is_alive()
}

#[test]
fn refuses_to_overwrite(rt: HostRuntime) -> Result<(), Fail> {
    for (at, found, wanted) in DAMAGED {
        let mut vault = store(rt.alloc())?;
        let damaged = VaultFault::Damaged { at, found, wanted };
        assert!(rt; refuses_overwrite(&mut vault, at, damaged), "at {at}");
    }
    Ok(())
}

/// Whether five words are put in place of the object at 9.
fn overwrites_five(vault: &mut MemoryVault) -> bool
    requires { vault.old.alive ≡ true }
{
    vault.overwrite(9, &short_text(50)) == Ok(()) && vault.length(9) == Ok(5)
}

#[test]
fn refuses_to_overwrite_another_length(rt: HostRuntime) -> Result<(), Fail> {
    let mut vault = store(rt.alloc())?;
    assert_eq!(rt; vault.overwrite(9, &long_text(60, 61)), Err(OTHER_LENGTH));
    let mut vault = store(rt.alloc())?;
    assert!(rt; overwrites_five(&mut vault));
    Ok(())
}

/// Whether a fetch fails by one call, and leaves what it was to fill.
fn fails_so(vault: &mut MemoryVault) -> bool
    requires { HoldsNothing vault.old }
{
    let mut into = [9; 5];
    fetch_failing(vault, 9, &mut into) == Err(VaultFault::Device)
        && into == [9; 5]
        && vault.calls() == 1
        && !vault.is_alive()
}

#[test]
fn fails_to_fetch(rt: HostRuntime) -> Result<(), Fail> {
    let mut vault = store(rt.alloc())?;
    assert!(rt; fails_so(&mut vault));
    Ok(())
}
