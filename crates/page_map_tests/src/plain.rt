//! A page map as plainly as it can be said: lists, and for each page whether it is in use.

use std::alloc::{AllocError, Global};
use std::mem;

/// A list of numbers in memory of its own.
fn copy_of(alloc: Global, numbers: &[u32]) -> Result<Vec<u32>, AllocError> {
    Vec::from_slice(alloc, numbers)
}

/// A plain page map.
#[derive(Drop)]
pub struct PlainMap {
    pub committed: Vec<u32>,
    pub staged: Vec<u32>,
    pub pins: Vec<Vec<u32>>,
    pub used: Vec<bool>,
    pages: u32,
}

impl PlainMap {
    /// A map with this many logical pages, physical pages and pins.
    pub fn new(
        alloc: Global,
        logical: usize,
        pages: u32,
        pins: u32,
    ) -> Result<PlainMap, AllocError> {
        let mut map = PlainMap {
            committed: vec![in alloc; 0; logical]?,
            staged: vec![in alloc; 0; logical]?,
            pins: Vec::new(alloc),
            used: vec![in alloc; true; pages as usize]?,
            pages,
        };
        for _ in 0..pins {
            map.pins.push(vec![in alloc; 0; logical]?)?;
        }
        map.settle(alloc, &[])?;
        Ok(map)
    }

    /// Whether a list names a page.
    fn is_named(&self, page: u32) -> bool {
        self.committed.contains(&page) || self.staged.contains(&page) || self.is_pinned(page)
    }

    /// Whether a pin names a page.
    fn is_pinned(&self, page: u32) -> bool {
        let mut any = false;
        for list in &self.pins {
            any = list.contains(&page) || any;
        }
        any
    }

    /// Makes a page used, or free.
    fn mark(&mut self, page: u32, is_used: bool) {
        if let Some(used) = self.used.get_mut(page as usize) {
            *used = is_used;
        }
    }

    /// Takes a page, and says whether it was free.
    pub fn claim(&mut self, page: u32) -> bool {
        let is_free = self.used.get(page as usize).copied() == Some(false);
        if is_free {
            self.mark(page, true);
        }
        is_free
    }

    /// Stages a number.
    pub fn replace(&mut self, page: u32, number: u32) {
        if let Some(staged) = self.staged.get_mut(page as usize) {
            *staged = number;
        }
    }

    /// How many pages aren't free.
    pub fn held(&self) -> usize {
        self.used.iter().filter(|used| **used).count()
    }

    /// Commits what is staged.
    pub fn settle(&mut self, alloc: Global, map_pages: &[u32]) -> Result<(), AllocError> {
        self.committed = copy_of(alloc, &self.staged)?;
        for page in 0..self.pages {
            let is_used = page < 4
                || self.staged.contains(&page)
                || map_pages.contains(&page)
                || self.is_pinned(page);
            self.mark(page, is_used);
        }
        Ok(())
    }

    /// A pin has what is committed, or nothing.
    pub fn set_pin(
        &mut self,
        alloc: Global,
        pin: usize,
        has_committed: bool,
    ) -> Result<(), AllocError> {
        let list = if has_committed {
            copy_of(alloc, &self.committed)?
        } else {
            vec![in alloc; 0; self.committed.len()]?
        };
        if pin < self.pins.len() {
            let given_up = mem::replace(&mut self.pins[pin], list);
            for page in 4..self.pages {
                if given_up.contains(&page) && !self.is_named(page) {
                    self.mark(page, false);
                }
            }
        }
        Ok(())
    }
}
