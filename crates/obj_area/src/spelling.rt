//! Words of 64 bits in the bytes that spell them, low byte first.
ghost use Rattle.std.specs.Prelude.{◌≡◌, ◌+◌, ◌*◌, ◌≤◌, length, take, drop, slice_index, slice_set};
ghost use Rattle.std.specs.Borrow.{sem, u8};
ghost use Rattle.std.specs.Vec.{vec_follows_range};
ghost use Rattle.obj_area.specs.Words.{AreWords, bytes_of, words_of, overwritten};
ghost use Rattle.obj_area.specs.inside.Bytes.{AreWhole};

use byteorder::{ByteOrder, LittleEndian};
use std::alloc::Allocator;

/// How many words the bytes spell.
pub fn count(bytes: &[u8]) -> usize
    ensures count { result ≡ length (words_of bytes.now) }
    ensures words { AreWords (words_of bytes.now) }
{
    bytes.len() / 8
}

/// The word at `index`.
#[inline]
pub fn word(bytes: &[u8], index: usize) -> u64
    requires { 8 * index + 8 ≤ length bytes.now }
    ensures { result ≡ slice_index (words_of bytes.now) index }
{
    LittleEndian::read_u64(&bytes[8 * index..])
}

/// Writes `value` over the word at `index`.
#[inline]
pub fn set_word(bytes: &mut [u8], index: usize, value: u64)
    requires { 8 * index + 8 ≤ length bytes.old }
    ensures { words_of bytes.new ≡ slice_set (words_of bytes.old) index value }
{
    LittleEndian::write_u64(&mut bytes[8 * index..], value);
}

/// Copies the words from `index` on into `into`, as many as that holds.
pub fn read(bytes: &[u8], index: usize, into: &mut [u64])
    requires { 8 * index + 8 * length into.old ≤ length bytes.now }
    ensures { into.new ≡ take (length into.old) (drop index (words_of bytes.now)) }
{
    let start = 8 * index;
    LittleEndian::read_u64_into(&bytes[start..start + 8 * into.len()], into);
}

/// Writes `from` over the words from `index` on.
pub fn write(bytes: &mut [u8], index: usize, from: &[u64])
    requires { 8 * index + 8 * length from.now ≤ length bytes.old }
    ensures { words_of bytes.new ≡ overwritten (words_of bytes.old) index from.now }
{
    let start = 8 * index;
    LittleEndian::write_u64_into(from, &mut bytes[start..start + 8 * from.len()]);
}

// A law: bytes of whole words are the spelling of the words that they spell.
fn are_spelled(bytes: &[u8])
    requires { AreWhole bytes.now }
    ensures { bytes_of (words_of bytes.now) ≡ bytes.now }
{}

/// The first `len` bytes of the words from `index` on.
pub fn bytes_from(bytes: &[u8], index: usize, len: usize) -> &[u8]
    requires whole { AreWhole bytes.now }
    requires within { 8 * index + len ≤ length bytes.now }
    ensures value { result.now ≡ take len (drop (8 * index) (bytes_of (words_of bytes.now))) }
    ensures len { length result.now ≡ len }
{
    let start = 8 * index;
    &bytes[start..start + len]
}

/// The same bytes, to be written.
pub fn bytes_from_mut<A: Allocator>(bytes: &mut Vec<u8, A>, index: usize, len: usize) -> &mut [u8]
    requires whole { AreWhole bytes.old.items }
    requires within { 8 * index + len ≤ length bytes.old.items }
    ensures* writes_back { sem 𝓛 (vec_follows_range u8 A.row A.Allocator bytes.entry (8 * index) result) }
    ensures value { result.now ≡ take len (drop (8 * index) bytes.old.items) }
    ensures len { length result.now ≡ len }
    ensures spelled { bytes_of (words_of bytes.old.items) ≡ bytes.old.items }
{
    are_spelled(bytes);
    let start = 8 * index;
    bytes.slice_mut(start..start + len)
}

/// Writes `from` over the bytes from `start` on.
pub fn write_bytes(bytes: &mut [u8], start: usize, from: &[u8])
    requires whole { AreWhole bytes.old }
    requires within { start + length from.now ≤ length bytes.old }
    ensures written { bytes.new ≡ overwritten bytes.old start from.now }
    ensures spelled { bytes_of (words_of bytes.old) ≡ bytes.old }
{
    are_spelled(bytes);
    bytes[start..start + from.len()].copy_from_slice(from);
}

/// Copies `len` bytes from those from `start` on over those from `to` on.
pub fn copy_bytes(bytes: &mut [u8], start: usize, len: usize, to: usize)
    requires whole { AreWhole bytes.old }
    requires from { start + len ≤ length bytes.old }
    requires to { to + len ≤ length bytes.old }
    ensures written { bytes.new ≡ overwritten bytes.old to (take len (drop start bytes.old)) }
    ensures spelled { bytes_of (words_of bytes.old) ≡ bytes.old }
{
    are_spelled(bytes);
    bytes.copy_within(start..start + len, to);
}
