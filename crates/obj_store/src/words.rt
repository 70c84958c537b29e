//! Words in the bytes of a page.

ghost use Rattle.std.specs.Prelude.{◌≡◌, ◌≢◌, ◌⊎◌, ℕ, ◌+◌, ◌-◌, ◌*◌, ◌^◌, ◌<◌, ◌≤◌, min, max, true, false, List, length, slice_index};
ghost use Rattle.obj_store.specs.Spaces.{word_at};
ghost use Rattle.obj_store.specs.Words.{IsRead, IsPut, Differs};

use byteorder::{ByteOrder, LittleEndian};
use std::cmp::{max, min};

/// The words of a page.
pub const PAGE_WORDS: u64 = 512;

/// The word with this index.
fn word_in(page: &[u8], index: usize) -> u64
    requires { 8 * index + 8 ≤ length page.now }
    ensures { result ≡ word_at page.now index }
{
    LittleEndian::read_u64(&page[8 * index..])
}

/// Puts a word in place of the one with this index.
fn put_word(page: &mut [u8], index: usize, word: u64)
    requires { 8 * index + 8 ≤ length page.old }
    ensures long { length page.new ≡ length page.old }
    ensures here { word_at page.new index ≡ word }
    ensures elsewhere { (other : ℕ) → other ≢ index → 8 * other + 8 ≤ length page.old → word_at page.new other ≡ word_at page.old other }
{
    LittleEndian::write_u64(&mut page[8 * index..], word);
}

/// Where words that lie from `at` on meet a page whose first word is `first`.
fn meeting(first: u64, at: u64, count: usize) -> (u64, u64)
    requires { (first + 512 < 2 ^ 64) × (at + count < 2 ^ 64) }
    ensures { result ≡ (max at first, min (at + count) (first + 512)) }
{
    (max(at, first), min(at + count as u64, first + PAGE_WORDS))
}

/// Reads those words that stand in a page, of words that lie from `at` on.
pub fn take_words(page: &[u8], first: u64, at: u64, into: &mut [u64])
    requires size { length page.now ≡ 4096 }
    requires small { (first + 512 < 2 ^ 64) × (at + length into.old < 2 ^ 64) }
    requires meets { (at ≤ first + 512) × (first ≤ at + length into.old) }
    ensures { IsRead page.now first (max at first) (min (at + length into.old) (first + 512)) at into.old into.new }
{
    let (low, high) = meeting(first, at, into.len());
    for index in low..high {
        into[(index - at) as usize] = word_in(page, (index - first) as usize);
    }
}

// Puts a word in place of the one with this index, and answers whether that was another one.
fn change_word(page: &mut [u8], index: usize, word: u64) -> bool
    requires { 8 * index + 8 ≤ length page.old }
    ensures long { length page.new ≡ length page.old }
    ensures here { word_at page.new index ≡ word }
    ensures elsewhere { (other : ℕ) → other ≢ index → 8 * other + 8 ≤ length page.old → word_at page.new other ≡ word_at page.old other }
    ensures same { result ≡ false → page.new ≡ page.old }
    ensures changes { result ≡ true → word_at page.old index ≢ word }
{
    if word_in(page, index) == word {
        return false;
    }
    put_word(page, index, word);
    true
}

/// Puts those words into a page that stand there, of words that lie from `at` on, and answers whether one of them changes.
pub fn put_words(page: &mut [u8], first: u64, at: u64, from: &[u64]) -> bool
    requires size { length page.old ≡ 4096 }
    requires small { (first + 512 < 2 ^ 64) × (at + length from.now < 2 ^ 64) }
    requires meets { (at ≤ first + 512) × (first ≤ at + length from.now) }
    ensures put { IsPut first (max at first) (min (at + length from.now) (first + 512)) at from.now page.old page.new }
    ensures same { result ≡ false → page.new ≡ page.old }
    ensures changes { result ≡ true → Differs first (max at first) (min (at + length from.now) (first + 512)) at from.now page.old }
{
    let (low, high) = meeting(first, at, from.len());
    let mut changes = false;
    for index in low..high {
        let word = from[(index - at) as usize];
        if change_word(page, (index - first) as usize, word) {
            changes = true;
        }
    }
    changes
}
