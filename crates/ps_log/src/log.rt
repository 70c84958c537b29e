ghost use Rattle.std.specs.Prelude.{◌≡◌, ℕ, List};

use crate::last::{Last, place_of, put_place, restore_place};
use std::alloc::{AllocError, Global};
use std::marker::Model;

/// What has a name.
pub trait Named {
    ghost name: { Self → List ℕ };

    /// The name.
    fn name(&self) -> &[u8]
        ensures { result.now ≡ name self.now };
}

/// Named entries, from the first to the last.
#[derive(Drop)]
pub struct Log<T: Named> {
    lines: Vec<Line<T>>,
    last: Last,
}

/// An entry, and the place of the entry that it hides.
#[derive(Drop)]
struct Line<T> {
    entry: T,
    hides: Option<usize>,
}

impl<T: Named> Model for Log<T> {
    ghost use Rattle.std.specs.Prelude.{List, map};

    ghost Value = { List T };

    ghost use Rattle.ps_log.specs.inside.Kept.{IsKept, links_back};

    ghost view = { λ l. map (λ line. line.entry) l.lines.items };

    ghost invariant = { λ l. IsKept (links_back T.name l.lines.items) l.last };
}

impl<T: Named> Log<T> {
    ghost use Rattle.std.specs.Prelude.{◌≡◌, ◌-◌, ◌≤◌, ◌++◌, ◌∷◌, [], length, reverse, take, drop, is_some, option_map, IfOk, OnOk, OnErr};
    ghost use Rattle.std.specs.Borrow.{Bor};
    ghost use Rattle.ps_log.specs.First.{first_named};

    /// No entries.
    pub fn new(alloc: Global) -> Log<T>
        ensures { result ≡ [] }
    {
        Log {
            lines: Vec::new(alloc),
            last: Last::new(alloc),
        }
    }

    /// These entries, with room for so many before more is taken.
    pub fn from_entries(alloc: Global, entries: Vec<T>, room: usize) -> Result<Log<T>, AllocError>
    where
        T: Drop,
        ensures { IfOk result (λ made. made ≡ entries.items) }
    {
        let mut log = Log {
            lines: Vec::with_capacity(alloc, room)?,
            last: Last::new(alloc),
        };
        for entry in entries {
            log.push(entry)?;
        }
        Ok(log)
    }

    /// How many entries there are.
    pub fn len(&self) -> usize
        ensures { result ≡ length self.now }
    {
        self.lines.len()
    }

    /// The last entry of the name, or `None` where there is none.
    pub fn find(&self, name: &[u8]) -> Option<&T>
        ensures { option_map (λ (entry : Bor T). entry.now) result ≡ first_named T.name (reverse self.now) name.now }
    {
        match place_of(&self.last, name) {
            Some(place) => Some(&self.lines[place].entry),
            None => None,
        }
    }

    /// Whether there is an entry of the name after so many.
    pub fn has_behind(&self, count: usize, name: &[u8]) -> bool
        requires { count ≤ length self.now }
        ensures { result ≡ is_some (first_named T.name (reverse (drop count self.now)) name.now) }
    {
        match place_of(&self.last, name) {
            Some(place) => count <= place,
            None => false,
        }
    }

    /// Puts the entry after the others. A refusal leaves them as they were.
    pub fn push(&mut self, entry: T) -> Result<(), AllocError>
    where
        T: Drop,
        ensures put { OnOk result (self.new ≡ self.old ++ entry ∷ []) }
        ensures refused { OnErr result (self.new ≡ self.old) }
    {
        let place = self.lines.len();
        self.lines.reserve(1)?;
        let hides = put_place(&mut self.last, entry.name(), place)?;
        self.lines.push(Line { entry, hides })?;
        Ok(())
    }

    /// Takes the last entry back, if there is one.
    pub fn pop(&mut self)
    where
        T: Drop,
        ensures { self.new ≡ take (length self.old - 1) self.old }
    {
        if let Some(line) = self.lines.pop() {
            restore_place(&mut self.last, line.entry.name(), line.hides);
        }
    }

    /// Takes the last entries back until so many are left.
    pub fn truncate(&mut self, len: usize)
    where
        T: Drop,
        ensures { self.new ≡ take len self.old }
    {
        while self.len() > len {
            self.pop();
        }
    }
}
