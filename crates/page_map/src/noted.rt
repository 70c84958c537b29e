ghost use Rattle.std.specs.Prelude.{◌≡◌, [], Some, None, IfOk, MatchOption};
ghost use Rattle.page_map.specs.inside.Noted.{IsNoted};

use std::alloc::{AllocError, Global};
use std::marker::Model;

/// How many numbers are noted at most.
const MOST: usize = 4096;

/// The numbers that were noted since it was cleared; none, where they were too many.
#[derive(Drop)]
pub(crate) struct Noted {
    numbers: Vec<u32>,
    // No number was left out for want of room.
    whole: bool,
}

impl Model for Noted {
    ghost use Rattle.std.specs.Prelude.{List, ℕ, Option, Some, None, if◌then◌else◌};

    ghost Value = { Option (List ℕ) };

    ghost view = { λ noted. if noted.whole then Some noted.numbers.items else None };
}

impl Noted {
    /// No number is noted.
    pub fn new(alloc: Global) -> Result<Noted, AllocError>
        ensures { IfOk result (λ noted. noted ≡ Some []) }
    {
        Ok(Noted {
            numbers: Vec::with_capacity(alloc, MOST)?,
            whole: true,
        })
    }

    /// Notes a number, if there is room for one more.
    pub fn note(&mut self, number: u32)
        ensures { IsNoted number self.old self.new }
    {
        if self.numbers.len() >= self.numbers.capacity() {
            self.whole = false;
            return;
        }
        self.numbers.push_reserved(number);
    }

    /// Notes no number any more.
    pub fn clear(&mut self)
        ensures { self.new ≡ Some [] }
    {
        self.numbers.clear();
        self.whole = true;
    }

    /// The numbers.
    pub fn numbers(&self) -> Option<&[u32]>
        ensures { MatchOption result (self.now ≡ None) (λ numbers. self.now ≡ Some numbers.now) }
    {
        if self.whole {
            Some(&self.numbers)
        } else {
            None
        }
    }
}
