ghost use Rattle.std.specs.Prelude.{◌≡◌, ◌+◌, ◌-◌, ◌*◌, ◌≤◌, ◌^◌, IfOk, SomeIff, MatchOption, length};
ghost use Rattle.std.specs.Borrow.{sem};
ghost use Rattle.obj_area.specs.Lending.{LendsBytes};
ghost use Rattle.obj_area.specs.Area.{IsArea, IsGivenOut, fresh_area, top_of, word_at, words_at, bytes_at, words_spanned, with_zeros, with_word, with_words, bytes_from, byte_place, with_bytes_from};

use crate::spelling;
use std::alloc::{AllocError, Global};
use std::marker::Model;

/// One allocation, whose words are given out in order and forgotten all at once. A word is named by
/// its index, from 1; no word has index 0, so that 0 can stand for none.
#[derive(Drop)]
pub struct Area {
    // The words that are given out, low byte first, the one with index 1 at the start.
    bytes: Vec<u8>,
    room: u32,
}

impl Model for Area {
    ghost use Rattle.std.specs.Prelude.{◌+◌, ◌*◌, ◌/◌, ◌≡◌, ◌≤◌, ◌^◌, length, vec_capacity};
    ghost use Rattle.obj_area.specs.Area.{AreaView, seen_as};

    ghost Value = { AreaView };

    ghost view = { λ a. seen_as a.bytes.items (a.room + 1) };

    ghost invariant = { λ a. (length a.bytes.items ≡ 8 * (length a.bytes.items / 8))
        × (length a.bytes.items ≤ 8 * a.room)
        × (a.room ≤ 2 ^ 25)
        × (8 * a.room ≤ vec_capacity a.bytes) };
}

impl Area {
    /// An area that can give out `words` words. No page of it is touched before it is given out.
    pub fn new(alloc: Global, words: u32) -> Result<Area, AllocError>
        requires { words ≤ 2 ^ 25 }
        ensures { IfOk result (λ area. area ≡ fresh_area (words + 1)) }
    {
        let bytes = Vec::with_capacity(alloc, 8 * words as usize)?;
        Ok(Area { bytes, room: words })
    }

    /// Gives out `words` words, all 0, and answers the index of the first. Takes no memory. None where
    /// fewer are left, and then the area stays.
    pub fn make(&mut self, words: u32) -> Option<u32>
        ensures place { SomeIff result (top_of self.old + words ≤ self.old.size) (top_of self.old) }
        ensures made { MatchOption result (self.new ≡ self.old) (λ _. self.new ≡ with_zeros self.old words) }
    {
        let top = self.top();
        if words > self.size() - top {
            return None;
        }
        let end = self.bytes.len() + 8 * words as usize;
        match self.bytes.resize(end, 0) {
            Ok(()) => Some(top),
            Err(_) => unreachable!(),
        }
    }

    /// Takes all words back, in no time that depends on their number.
    pub fn reset(&mut self)
        ensures { self.new ≡ fresh_area self.old.size }
    {
        self.bytes.clear();
    }

    /// The index of the next word that is given out: 1 in a fresh area.
    pub fn top(&self) -> u32
        ensures top { result ≡ top_of self.now }
        ensures area { IsArea self.now }
    {
        spelling::count(&self.bytes) as u32 + 1
    }

    /// One more than the words that the area can give out.
    pub fn size(&self) -> u32
        ensures size { result ≡ self.now.size }
        ensures within { top_of self.now ≤ result }
        ensures small { result ≤ 2 ^ 25 + 1 }
    {
        self.room + 1
    }

    /// The word at index `at`.
    #[inline]
    pub fn word(&self, at: u32) -> u64
        requires { IsGivenOut self.now at 1 }
        ensures { result ≡ word_at self.now at }
    {
        spelling::word(&self.bytes, at as usize - 1)
    }

    /// Writes `value` over the word at index `at`.
    #[inline]
    pub fn set_word(&mut self, at: u32, value: u64)
        requires { IsGivenOut self.old at 1 }
        ensures written { self.new ≡ with_word self.old at value }
        ensures top { top_of self.new ≡ top_of self.old }
    {
        spelling::set_word(&mut self.bytes, at as usize - 1, value);
    }

    /// Copies the words from `at` on into `into`, as many as that holds.
    pub fn read_words(&self, at: u32, into: &mut [u64])
        requires { IsGivenOut self.now at (length into.old) }
        ensures { into.new ≡ words_at self.now at (length into.old) }
    {
        spelling::read(&self.bytes, at as usize - 1, into);
    }

    /// Writes `from` over the words from `at` on.
    pub fn write_words(&mut self, at: u32, from: &[u64])
        requires { IsGivenOut self.old at (length from.now) }
        ensures written { self.new ≡ with_words self.old at from.now }
        ensures top { top_of self.new ≡ top_of self.old }
    {
        spelling::write(&mut self.bytes, at as usize - 1, from);
    }

    /// The first `len` bytes of the words from `at` on, low byte first.
    pub fn bytes(&self, at: u32, len: u32) -> &[u8]
        requires { IsGivenOut self.now at (words_spanned len) }
        ensures value { result.now ≡ bytes_at self.now at len }
        ensures len { length result.now ≡ len }
    {
        spelling::bytes_from(&self.bytes, at as usize - 1, len as usize)
    }

    /// The same bytes, to be written. All other bytes of the area stay, also those after them in their
    /// last word.
    pub fn bytes_mut(&mut self, at: u32, len: u32) -> &mut [u8]
        requires { IsGivenOut self.old at (words_spanned len) }
        ensures* writes_back { sem 𝓛 (LendsBytes self.entry at result) }
        ensures value { result.now ≡ bytes_at self.old at len }
        ensures len { length result.now ≡ len }
    {
        spelling::bytes_from_mut(&mut self.bytes, at as usize - 1, len as usize)
    }

    /// Writes `from` over the bytes of the words from `at` on, after the first `skip` ones. All other bytes stay.
    pub fn write_bytes(&mut self, at: u32, skip: u32, from: &[u8])
        requires { IsGivenOut self.old at (words_spanned (skip + length from.now)) }
        ensures { self.new ≡ with_bytes_from self.old (byte_place at skip) from.now }
    {
        let start = 8 * (at as usize - 1) + skip as usize;
        spelling::write_bytes(&mut self.bytes, start, from);
    }

    /// Copies `len` bytes from after the first `from_skip` ones of the words from `from` on to after the first `to_skip` ones of those from
    /// `to` on. The two may overlap.
    pub fn copy_bytes(&mut self, from: u32, from_skip: u32, to: u32, to_skip: u32, len: u32)
        requires from { IsGivenOut self.old from (words_spanned (from_skip + len)) }
        requires to { IsGivenOut self.old to (words_spanned (to_skip + len)) }
        ensures { self.new ≡ with_bytes_from self.old (byte_place to to_skip) (bytes_from self.old (byte_place from from_skip) len) }
    {
        let start = 8 * (from as usize - 1) + from_skip as usize;
        let end = 8 * (to as usize - 1) + to_skip as usize;
        spelling::copy_bytes(&mut self.bytes, start, len as usize, end);
    }
}
