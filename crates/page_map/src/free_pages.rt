ghost use Rattle.std.specs.Prelude.{◌≡◌, ℕ, ◌+◌, ◌<◌, ◌≤◌, true, false, not, ◌&&◌, ◌||◌, ◌==◌, IfOk, MatchOption, IfSome, length, slice_index_or, slice_set};
ghost use Rattle.page_map.specs.Pages.{is_free, held_of, free_where, may_be_free, names, one_names, without};

use crate::page_list::PageList;
use std::alloc::{AllocError, Global};
use std::marker::Model;

/// The first page that can be free. Those below it are the header, the page of the selector and the two root pages.
const FIRST: usize = 4;

/// The pages of a volume, each of them free or in use.
#[derive(Drop)]
pub(crate) struct FreePages {
    // Of each page whether it is free.
    free: Vec<bool>,
    // Each page below it is in use.
    next: usize,
    // How many pages are in use.
    held: u32,
}

impl Model for FreePages {
    ghost use Rattle.std.specs.Prelude.{List, Bool};

    ghost Value = { List Bool };

    ghost use Rattle.page_map.specs.inside.Counted.{IsCounted};

    ghost view = { λ pages. pages.free.items };

    ghost invariant = { IsCounted };
}

impl FreePages {
    /// So many pages, of which each one from 4 on is free.
    pub fn new(alloc: Global, count: u32) -> Result<FreePages, AllocError>
        ensures { IfOk result (λ pages. pages ≡ free_where count may_be_free) }
    {
        let mut free = Vec::with_capacity(alloc, count as usize)?;
        free.resize(count as usize, false)?;
        let mut pages = FreePages {
            free,
            next: 0,
            held: count,
        };
        pages.release_all();
        Ok(pages)
    }

    /// How many pages there are.
    pub fn len(&self) -> u32
        ensures { result ≡ length self.now }
    {
        self.free.len() as u32
    }

    /// How many pages aren't free.
    pub fn held(&self) -> u32
        ensures { result ≡ held_of self.now }
    {
        self.held
    }

    /// Takes a page, if it is free, and says whether it was.
    #[tactic(auto, using(crate::proofs::PageLaws::taking))]
    pub fn claim(&mut self, page: u32) -> bool
        ensures answer { result ≡ is_free self.old page }
        ensures taken { self.new ≡ slice_set self.old page false }
    {
        let place = page as usize;
        if place >= self.free.len() || !self.free[place] {
            return false;
        }
        self.free[place] = false;
        self.held += 1;
        true
    }

    /// Takes a free page. None exactly where there is none.
    #[tactic(auto, using(crate::proofs::PageLaws::taking))]
    pub fn take(&mut self) -> Option<u32>
        ensures found { MatchOption result ((page : ℕ) → is_free self.old page ≡ false) (λ page. is_free self.old page ≡ true) }
        ensures taken { MatchOption result (self.new ≡ self.old) (λ page. self.new ≡ slice_set self.old page false) }
    {
        let page = first_free(&self.free, self.next);
        self.next = page;
        if page == self.free.len() {
            return None;
        }
        self.free[page] = false;
        self.held += 1;
        Some(page as u32)
    }

    /// Makes a page free that may be free.
    #[tactic(auto, using(crate::proofs::PageLaws::taking))]
    fn release(&mut self, page: u32)
        ensures len { length self.new ≡ length self.old }
        ensures free { (p : ℕ) → p < length self.old → is_free self.new p ≡ (is_free self.old p || (may_be_free p && (page == p))) }
    {
        let place = page as usize;
        if place < FIRST || place >= self.free.len() || self.free[place] {
            return;
        }
        self.free[place] = true;
        self.held -= 1;
        self.next = self.next.min(place);
    }

    /// Makes all pages free that may be free.
    pub fn release_all(&mut self)
        ensures { self.new ≡ free_where (length self.old) may_be_free }
    {
        free_all(&mut self.free);
        self.held = self.free.len().min(FIRST) as u32;
        self.next = 0;
    }

    /// Makes the pages free that a list names, of those that may be free.
    pub fn release_named(&mut self, list: &[u32])
        ensures { self.new ≡ free_where (length self.old) (λ p. is_free self.old p || (may_be_free p && names list.now p)) }
    {
        for page in list {
            self.release(*page);
        }
    }

    /// Makes the pages free that a list names and that have no mark, of those that may be free.
    pub fn release_unmarked(&mut self, list: &[u32], marks: &[bool])
        ensures { self.new ≡ free_where (length self.old) (λ p. is_free self.old p || (may_be_free p && (names list.now p && not (is_free marks.now p)))) }
    {
        for page in list {
            if !is_marked(marks, *page) {
                self.release(*page);
            }
        }
    }

    /// Takes the free ones of the pages that a list names.
    pub fn hold(&mut self, list: &[u32])
        ensures { self.new ≡ without self.old list.now }
    {
        for page in list {
            self.claim(*page);
        }
    }

    /// Takes the free ones of the pages that one of these lists names.
    pub fn hold_each(&mut self, lists: &[PageList])
        ensures { self.new ≡ free_where (length self.old) (λ p. is_free self.old p && not (one_names lists.now p)) }
    {
        for list in lists {
            self.hold(list.numbers());
        }
    }
}

// Whether a page has a mark.
fn is_marked(marks: &[bool], page: u32) -> bool
    ensures { result ≡ is_free marks.now page }
{
    let place = page as usize;
    place < marks.len() && marks[place]
}

// The first free page from a page on, or the number of pages.
fn first_free(free: &[bool], from: usize) -> usize
    ensures within { result ≤ length free.now }
    ensures passed { (page : ℕ) → from ≤ page → page < result → is_free free.now page ≡ false }
    ensures found { result < length free.now → is_free free.now result ≡ true }
{
    for page in from..free.len() {
        if free[page] {
            return page;
        }
    }
    free.len()
}

// Makes all pages free that may be free, and no others.
fn free_all(free: &mut [bool])
    ensures { free.new ≡ free_where (length free.old) may_be_free }
{
    for (page, is_free) in free.iter_mut().enumerate() {
        *is_free = page >= FIRST;
    }
}
