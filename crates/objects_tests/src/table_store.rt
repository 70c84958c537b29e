//! A store of two structures, and of two tables that never had a key.
ghost use Rattle.std.specs.Prelude.{◌≡◌, true, IfOk};

use memory_vault::memory::MemoryVault;
use std::alloc::Global;
use std::test::Fail;

// 1 in the upper half of a word.
const MANY: u64 = 1 << 32;

// The word of a reference, without the PID.
const PID: u64 = 1 << 63;

/// The PIDs of two structures.
pub const FIRST: u64 = 7;

pub const SECOND: u64 = 14;

/// The PID of a table, for keys that are strings.
pub const STRINGS: u64 = 21;

/// The PID of a table, for keys that are ints.
pub const INTS: u64 = 29;

// The objects from word 1 on.
const WORDS: [&[u64]; 5] = [
    // 1: `(int a)`
    &[1, 0, 2 + 7 * MANY, 0, 0, 0x29_6120_746e_6928],
    // 7, 14: structures
    &[2 + MANY, 0, 2, 0, PID + 1, 0, 5],
    &[2 + MANY, 0, 2, 0, PID + 1, 0, 6],
    // 21, 29: tables
    &[7 + MANY, 0, 3, 0, 0, 0, 0, 0],
    &[7 + MANY, 0, 3, 0, 0, 0, 0, 0],
];

/// The store.
pub fn store(alloc: Global) -> Result<MemoryVault, Fail>
    ensures { IfOk result (λ vault. vault.alive ≡ true) }
{
    let mut words = Vec::new(alloc);
    words.push(0)?;
    for object in &WORDS {
        words.extend_from_slice(object)?;
    }
    let count = words.len();
    if count == 0 || count > 1000 {
        return Err("no such store".into());
    }
    Ok(MemoryVault::of_words(alloc, &words, 0, count as u64)?)
}
