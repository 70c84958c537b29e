//! Texts that are fetched once, and found again by their PIDs.
ghost use Rattle.std.specs.Prelude.{◌≡◌, true, IfOk};

use anyhow::{Result, bail};
use machine_run::swizzle::swizzle::Swizzle;
use memory_vault::memory::MemoryVault;
use std::alloc::{AllocError, Global};

// The words of a text of eight bytes, without its bytes: kind, spare word, two number words and eight bytes, spare word, home.
const HEAD: [u64; 5] = [1, 0, 2 + (8 << 32), 0, 0];

// How many words each text has.
const SIZE: u64 = 6;

// The most texts.
const MOST: u32 = 1_000_000;

/// The sum of the places in which the texts of a store are found, each so often, in an order that goes far from one to the next. Each is fetched where it
/// is found first.
pub fn sum_found(alloc: Global, texts: u32, passes: u32) -> Result<u64> {
    let texts = texts.clamp(1, MOST);
    let mut vault = vault_of(alloc, texts)?;
    let mut sw = Swizzle::new(alloc, 8 * texts + 8)?;
    let mut sum = 0u64;
    for step in 0..u64::from(texts).saturating_mul(u64::from(passes)) {
        let place = step.wrapping_mul(7_919) % u64::from(texts);
        match sw.touch_pid(&mut vault, 1 + SIZE * place) {
            Ok(at) => sum = sum.wrapping_add(u64::from(at)),
            Err(_) => bail!("not found"),
        }
    }
    Ok(sum)
}

// A vault with so many texts.
fn vault_of(alloc: Global, texts: u32) -> Result<MemoryVault, AllocError>
    ensures { IfOk result (λ vault. vault.alive ≡ true) }
{
    let mut words = Vec::new(alloc);
    words.push(0)?;
    for text in 0..texts {
        words.extend_from_slice(&HEAD)?;
        words.push(u64::from(text))?;
    }
    let count = words.len();
    if count == 0 || count > 8 * MOST as usize {
        return MemoryVault::new(alloc, 1);
    }
    MemoryVault::of_words(alloc, &words, 0, count as u64)
}
