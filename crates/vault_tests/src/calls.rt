//! What each call answers where no fault comes.
ghost use Rattle.std.specs.Prelude.{OnOk, true, ◌≡◌};

use crate::objects::{long_text, short_text};
use memory_vault::memory::MemoryVault;
use memory_vault::obj_layout::vault::{Vault, VaultFault};
use std::test::Fail;

/// Fetches an object, of which it asks the length before.
fn fetch(vault: &mut MemoryVault, pid: u64, into: &mut [u64]) -> Result<(), VaultFault>
    requires { vault.old.alive ≡ true }
    ensures { OnOk result (vault.new.alive ≡ true) }
{
    let count = vault.length(pid)?;
    if count as usize != into.len() {
        return Err(VaultFault::Output);
    }
    vault.fetch(pid, into)
}

/// Whether it is as it is made, with room for nine words.
fn is_empty(vault: &MemoryVault) -> bool {
    vault.words() == [0].as_slice()
        && vault.used() == 1
        && vault.capacity() == 9
        && vault.directory() == 0
        && vault.calls() == 0
        && vault.told().is_empty()
        && vault.is_alive()
}

#[test]
fn is_made_empty(rt: HostRuntime) -> Result<(), Fail> {
    let vault = MemoryVault::new(rt.alloc(), 9)?;
    assert!(rt; is_empty(&vault));
    Ok(())
}

/// Whether it holds three words, with the directory 2 and room for nine.
fn holds_three(vault: &MemoryVault) -> bool {
    vault.words() == [7, 8, u64::MAX].as_slice()
        && vault.used() == 3
        && vault.capacity() == 9
        && vault.directory() == 2
}

#[test]
fn holds_the_words_that_it_is_made_of(rt: HostRuntime) -> Result<(), Fail> {
    let vault = MemoryVault::of_words(rt.alloc(), &[7, 8, u64::MAX], 2, 9)?;
    assert!(rt; holds_three(&vault));
    Ok(())
}

/// Whether it stores a short text and a long one after it.
fn stores_two(vault: &mut MemoryVault) -> bool
    requires { vault.old.alive ≡ true }
    ensures { result ≡ true → vault.new.alive ≡ true }
{
    vault.append(&short_text(50)) == Ok(1) && vault.append(&long_text(60, 61)) == Ok(6)
}

/// Whether it gives those two, and has made eight calls then.
fn gives_two(vault: &mut MemoryVault) -> bool
    requires { vault.old.alive ≡ true }
{
    let mut short = [0; 5];
    let mut long = [0; 6];
    vault.used() == 12
        && vault.length(1) == Ok(5)
        && vault.length(6) == Ok(6)
        && fetch(vault, 1, &mut short) == Ok(())
        && short == [1, 0, 1, 0, 50]
        && fetch(vault, 6, &mut long) == Ok(())
        && long == [1, 0, 0x0000_0008_0000_0002, 0, 60, 61]
        && vault.calls() == 8
}

#[test]
fn stores_and_gives_objects(rt: HostRuntime) -> Result<(), Fail> {
    let mut vault = MemoryVault::new(rt.alloc(), 12)?;
    assert!(rt; stores_two(&mut vault) && gives_two(&mut vault));
    Ok(())
}

/// Whether it stores a third after them, and puts another long text in place of the second.
fn overwrites(vault: &mut MemoryVault) -> bool
    requires { vault.old.alive ≡ true }
{
    vault.append(&short_text(70)) == Ok(12) && vault.overwrite(6, &long_text(80, 81)) == Ok(())
}

const OVERWRITTEN: [u64; 17] = [
    0,
    1,
    0,
    1,
    0,
    50,
    1,
    0,
    0x0000_0008_0000_0002,
    0,
    80,
    81,
    1,
    0,
    1,
    0,
    70,
];

#[test]
fn puts_words_in_place(rt: HostRuntime) -> Result<(), Fail> {
    let mut vault = MemoryVault::new(rt.alloc(), 20)?;
    assert!(rt; stores_two(&mut vault) && overwrites(&mut vault));
    assert!(rt; vault.words() == OVERWRITTEN.as_slice());
    assert_eq!(rt; vault.calls(), 4);
    Ok(())
}

/// Whether it settles its six words by one call.
fn settles(vault: &mut MemoryVault) -> bool
    requires { vault.old.alive ≡ true }
{
    vault.used() == 6
        && vault.settle(1) == Ok(())
        && vault.directory() == 1
        && vault.words() == [0, 1, 0, 1, 0, 5].as_slice()
        && vault.calls() == 1
        && vault.is_alive()
}

#[test]
fn settles_with_a_directory(rt: HostRuntime) -> Result<(), Fail> {
    let mut vault = MemoryVault::of_words(rt.alloc(), &[0, 1, 0, 1, 0, 5], 0, 9)?;
    assert!(rt; settles(&mut vault));
    Ok(())
}

/// Whether it tells what is put, by no call of the device.
fn tells(vault: &mut MemoryVault) -> bool
    requires { vault.old.alive ≡ true }
{
    vault.put(b"ab") == Ok(())
        && vault.put(b"cde") == Ok(())
        && vault.told() == b"abcde".as_slice()
        && vault.calls() == 0
}

#[test]
fn keeps_what_is_put(rt: HostRuntime) -> Result<(), Fail> {
    let mut vault = MemoryVault::new(rt.alloc(), 5)?;
    assert!(rt; tells(&mut vault));
    Ok(())
}
