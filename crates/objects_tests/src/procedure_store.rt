//! A store of procedures, of their code and scopes, and of objects that don't hold what procedures must.
ghost use Rattle.std.specs.Prelude.{◌≡◌, true, IfOk};

use memory_vault::memory::MemoryVault;
use std::alloc::Global;
use std::test::Fail;

// 1 in the upper half of a word.
const MANY: u64 = 1 << 32;

// The word of a reference, without the PID.
const PID: u64 = 1 << 63;

/// The PID of a text.
pub const TEXT: u64 = 1;

/// The PID of a code object of one byte, whose frame has 3 numbers and 4 references, of which 1 and 2 are parameters.
pub const CODE: u64 = 7;

/// The PID of a scope.
pub const SCOPE: u64 = 14;

/// The PID of a procedure of that code, made in no scope.
pub const BARE: u64 = 22;

/// The PID of one that was made in that scope.
pub const SCOPED: u64 = 29;

/// The PID of a closure without code.
pub const NO_CODE: u64 = 36;

/// The PID of a closure whose code is a text.
pub const TEXT_FOR_CODE: u64 = 43;

/// The PID of a closure whose scope is a text.
pub const TEXT_FOR_SCOPE: u64 = 50;

/// The PID of a closure with one reference.
pub const ONE_SLOT: u64 = 57;

// The objects from word 1 on.
const WORDS: [&[u64]; 9] = [
    // 1: `(int a)`
    &[1, 0, 2 + 7 * MANY, 0, 0, 0x29_6120_746e_6928],
    // 7: code of one byte
    &[
        6,
        0,
        3 + MANY,
        0,
        0,
        3 + (4 << 16) + (1 << 32) + (2 << 48),
        2,
    ],
    // 14: a scope of the text, in which 5 is kept
    &[4 + 2 * MANY, 0, 2, 0, PID + 1, 0, 0, 5],
    // 22, 29: procedures
    &[5 + 2 * MANY, 0, 1, 0, PID + 7, 0, 0],
    &[5 + 2 * MANY, 0, 1, 0, PID + 7, PID + 14, 0],
    // 36: no code
    &[5 + 2 * MANY, 0, 1, 0, 0, PID + 14, 0],
    // 43: a text for the code
    &[5 + 2 * MANY, 0, 1, 0, PID + 1, PID + 14, 0],
    // 50: a text for the scope
    &[5 + 2 * MANY, 0, 1, 0, PID + 7, PID + 1, 0],
    // 57: one reference
    &[5 + MANY, 0, 1, 0, PID + 7, 0],
];

/// The store.
pub fn store(alloc: Global) -> Result<MemoryVault, Fail>
    ensures { IfOk result (λ vault. vault.alive ≡ true) }
{
    let mut words = Vec::new(alloc);
    words.push(0)?;
    for object in &WORDS {
        words.extend_from_slice(object)?;
    }
    let count = words.len();
    if count == 0 || count > 1000 {
        return Err("no such store".into());
    }
    Ok(MemoryVault::of_words(alloc, &words, 0, count as u64)?)
}
