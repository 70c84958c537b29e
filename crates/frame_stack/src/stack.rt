ghost use Rattle.std.specs.Prelude.{◌≡◌, ◌+◌, ◌-◌, ◌<◌, ◌≤◌, ◌++◌, ◌∷◌, [], drop, length, replicate, slice_index_or, slice_set, take, IfOk};

use crate::fills::fill;
use std::alloc::{AllocError, Global};
use std::marker::Model;

/// The words of bodies that call one another, one body after the other. The last body runs; its words begin at `first`.
#[derive(Drop)]
pub struct FrameStack<W> {
    words: Vec<W>,
    first: usize,
}

impl<W> Model for FrameStack<W> {
    ghost use Rattle.std.specs.Prelude.{◌-◌, ◌≤◌, drop, take, vec_len, vec_capacity};
    ghost use Rattle.frame_stack.specs.Frames.{Frames, frames, frames_code};

    ghost Value = { Frames W };

    ghost coded = { frames_code W.code };

    ghost view = { λ s. frames (take s.first s.words.items) (drop s.first s.words.items) (vec_capacity s.words - s.first) };

    ghost invariant = { λ s. s.first ≤ vec_len s.words };
}

impl<W: Copy + Drop> FrameStack<W> {
    /// No words, with memory for so many. No page of it is touched before it is used.
    pub fn with_capacity(alloc: Global, count: usize) -> Result<FrameStack<W>, AllocError>
        ensures below { IfOk result (λ s. s.below ≡ []) }
        ensures own { IfOk result (λ s. s.own ≡ []) }
        ensures room { IfOk result (λ s. count ≤ s.room) }
    {
        Ok(FrameStack {
            words: Vec::with_capacity(alloc, count)?,
            first: 0,
        })
    }

    /// How many words the body that runs has.
    #[inline(always)]
    pub fn len(&self) -> usize
        ensures { result ≡ length self.now.own }
    {
        self.words.len() - self.first
    }

    /// A word of the body that runs.
    #[inline(always)]
    pub fn word(&self, place: usize) -> W
        requires { place < length self.now.own }
        ensures { result ≡ slice_index_or self.now.own place result }
    {
        self.words[self.first + place]
    }

    /// The words of the body that runs.
    #[inline(always)]
    pub fn own(&self) -> &[W]
        ensures { result.now ≡ self.now.own }
    {
        self.words.split_at(self.first).1
    }

    /// Writes over a word of the body that runs.
    #[inline(always)]
    pub fn set(&mut self, place: usize, word: W)
        requires { place < length self.old.own }
        ensures own { self.new.own ≡ slice_set self.old.own place word }
        ensures below { self.new.below ≡ self.old.below }
        ensures room { self.new.room ≡ self.old.room }
    {
        self.words[self.first + place] = word;
    }

    /// Puts a word on top of those of the body that runs, where there is room.
    #[inline(always)]
    pub fn push_reserved(&mut self, word: W)
        requires { length self.old.own < self.old.room }
        ensures own { self.new.own ≡ self.old.own ++ word ∷ [] }
        ensures len { length self.new.own ≡ length self.old.own + 1 }
        ensures below { self.new.below ≡ self.old.below }
        ensures room { self.new.room ≡ self.old.room }
    {
        self.words.push_reserved(word);
    }

    /// Takes the word on top of those of the body that runs.
    #[inline(always)]
    pub fn take_last(&mut self) -> W
        requires { 0 < length self.old.own }
        ensures own { self.old.own ≡ self.new.own ++ result ∷ [] }
        ensures len { length self.new.own + 1 ≡ length self.old.own }
        ensures below { self.new.below ≡ self.old.below }
        ensures room { self.new.room ≡ self.old.room }
    {
        self.words.take_last()
    }

    /// Leaves the body that runs its first words alone, so many.
    #[inline(always)]
    pub fn truncate(&mut self, count: usize)
        requires { count ≤ length self.old.own }
        ensures own { self.new.own ≡ take count self.old.own }
        ensures len { length self.new.own ≡ count }
        ensures below { self.new.below ≡ self.old.below }
        ensures room { self.new.room ≡ self.old.room }
    {
        self.words.truncate(self.first + count);
    }

    /// Forgets all words, and then the body that runs has so many blanks, where there is room.
    pub fn restart(&mut self, count: usize, blank: W)
        requires { count ≤ length self.old.below + self.old.room }
        ensures own { self.new.own ≡ replicate count blank }
        ensures below { self.new.below ≡ [] }
        ensures room { self.new.room ≡ length self.old.below + self.old.room }
    {
        self.words.clear();
        self.first = 0;
        fill(&mut self.words, count, blank);
    }

    /// Another body begins, and the one that ran waits: the words on top, so many, are the first of the other body, which is filled up with blanks.
    #[inline(always)]
    pub fn open(&mut self, args: usize, count: usize, blank: W)
        requires args { args ≤ length self.old.own }
        requires count { args ≤ count }
        requires room { (length self.old.own - args) + count ≤ self.old.room }
        ensures below { self.new.below ≡ self.old.below ++ take (length self.old.own - args) self.old.own }
        ensures own { self.new.own ≡ drop (length self.old.own - args) self.old.own ++ replicate (count - args) blank }
        ensures len { length self.new.own ≡ count }
        ensures room { self.new.room + (length self.old.own - args) ≡ self.old.room }
    {
        let first = self.words.len() - args;
        fill(&mut self.words, count - args, blank);
        self.first = first;
    }

    /// The body that runs ends, and the last one that waits goes on with so many words, of which the last ones are left out.
    #[inline(always)]
    pub fn close(&mut self, count: usize, dead: usize)
        requires dead { dead ≤ count }
        requires count { count ≤ length self.old.below }
        ensures below { self.new.below ≡ take (length self.old.below - count) self.old.below }
        ensures own { self.new.own ≡ take (count - dead) (drop (length self.old.below - count) self.old.below) }
        ensures len { length self.new.own ≡ count - dead }
        ensures room { self.new.room ≡ self.old.room + count }
    {
        if self.words.len() < self.first {
            unreachable!();
        }
        self.words.truncate(self.first - dead);
        self.first -= count;
    }
}
