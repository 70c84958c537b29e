//! A store of vectors: of ints, bools and strings, and of such as don't hold what their types say.
ghost use Rattle.std.specs.Prelude.{◌≡◌, true, IfOk};

use memory_vault::memory::MemoryVault;
use std::alloc::Global;
use std::test::Fail;

// 1 in the upper half of a word.
const MANY: u64 = 1 << 32;

// The word of a reference, without the PID.
const PID: u64 = 1 << 63;

/// The PID of the text `*int`, which is no vector.
pub const TEXT: u64 = 1;

/// The PID of a vector from 5: 4, 9, -1.
pub const INTS: u64 = 19;

/// The PID of a vector from 1: true, false.
pub const BOOLS: u64 = 29;

/// The PID of a vector of strings from 0: nil, the text `*int`, and what is no string, itself.
pub const STRINGS: u64 = 38;

/// The PID of a vector of ints from 1, whose first word is that of none: then 3.
pub const NO_INT: u64 = 48;

/// The PID of a vector of bools from 1, whose one word is 2.
pub const NO_BOOL: u64 = 57;

/// The PID of a vector whose lower bound is no int.
pub const NO_BOUND: u64 = 65;

/// The PID of a vector without elements.
pub const EMPTY: u64 = 73;

// The objects from word 1 on.
const WORDS: [&[u64]; 10] = [
    // 1: `*int`
    &[1, 0, 2 + 4 * MANY, 0, 0, 0x746e_692a],
    // 7: `*bool`
    &[1, 0, 2 + 5 * MANY, 0, 0, 0x6c_6f6f_622a],
    // 13: `*string`
    &[1, 0, 2 + 7 * MANY, 0, 0, 0x67_6e69_7274_732a],
    // 19: ints
    &[3 + MANY, 0, 5, 0, PID + 1, 0, 5, 4, 9, u64::MAX],
    // 29: bools
    &[3 + MANY, 0, 4, 0, PID + 7, 0, 1, 1, 0],
    // 38: strings
    &[3 + 4 * MANY, 0, 2, 0, PID + 13, 0, PID + 1, PID + 38, 0, 0],
    // 48: no int
    &[3 + MANY, 0, 4, 0, PID + 1, 0, 1, 1 << 40, 3],
    // 57: no bool
    &[3 + MANY, 0, 3, 0, PID + 7, 0, 1, 2],
    // 65: no lower bound
    &[3 + MANY, 0, 3, 0, PID + 1, 0, 1 << 33, 7],
    // 73: no elements
    &[3 + MANY, 0, 2, 0, PID + 1, 0, 1],
];

/// The store.
pub fn store(alloc: Global) -> Result<MemoryVault, Fail>
    ensures { IfOk result (λ vault. vault.alive ≡ true) }
{
    let mut words = Vec::new(alloc);
    words.push(0)?;
    for object in &WORDS {
        words.extend_from_slice(object)?;
    }
    let count = words.len();
    if count == 0 || count > 1000 {
        return Err("no such store".into());
    }
    Ok(MemoryVault::of_words(alloc, &words, 0, count as u64)?)
}
