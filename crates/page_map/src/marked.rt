ghost use Rattle.std.specs.Prelude.{◌≡◌, ℕ, ◌≤◌, ◌<◌, true, false, List, Bool, IfOk, MatchOption, length, slice_index, slice_set, replicate};
ghost use Rattle.page_map.specs.Pages.{is_free, names, no_pages};
ghost use Rattle.page_map.specs.inside.Marked.{Marks, MovesMark};

use crate::page_list::PageList;
use std::alloc::{AllocError, Global};
use std::marker::Model;

/// A list of pages, with a mark at each physical page that it names.
#[derive(Drop)]
pub(crate) struct MarkedList {
    list: PageList,
    marks: Vec<bool>,
    // No page was named twice, and none that there isn't: so the marks are right.
    apart: bool,
}

impl Model for MarkedList {
    ghost use Rattle.std.specs.Prelude.{ℕ, List};

    ghost Value = { List ℕ };

    ghost use Rattle.page_map.specs.inside.Marked.{AreMarked};

    ghost view = { λ marked. marked.list };

    ghost invariant = { AreMarked };
}

impl MarkedList {
    /// A list of so many logical pages that names none of so many physical ones.
    pub fn new(alloc: Global, logical: u32, pages: u32) -> Result<MarkedList, AllocError>
        ensures { IfOk result (λ list. list ≡ no_pages logical) }
    {
        Ok(MarkedList {
            list: PageList::new(alloc, logical)?,
            marks: no_marks(alloc, pages)?,
            apart: true,
        })
    }

    /// The list itself.
    pub fn list(&self) -> &PageList
        ensures { result.now ≡ self.now }
    {
        &self.list
    }

    /// Gives a logical page another number.
    pub fn set(&mut self, page: u32, number: u32)
        requires { page < length self.old }
        ensures { self.new ≡ slice_set self.old page number }
    {
        let old = self.list.number(page);
        let apart = move_mark(&mut self.marks, old, number);
        self.apart = self.apart & apart;
        self.list.set(page as usize, number);
    }

    /// Of each physical page from 1 on whether the list names it; None where no marks tell it.
    pub fn marks(&self) -> Option<&[bool]>
        ensures { MatchOption result (true ≡ true) (λ marks. Marks marks.now self.now) }
    {
        if self.apart { Some(&self.marks) } else { None }
    }
}

// No mark at any of so many pages.
fn no_marks(alloc: Global, pages: u32) -> Result<Vec<bool>, AllocError>
    ensures { IfOk result (λ marks. marks.items ≡ replicate pages false) }
{
    let mut marks = Vec::with_capacity(alloc, pages as usize)?;
    marks.resize(pages as usize, false)?;
    Ok(marks)
}

// Takes the mark from a page, and puts one at another, or at none where that is 0. False where that had one already, or isn't there.
fn move_mark(marks: &mut [bool], old: u32, number: u32) -> bool
    ensures { MovesMark marks.old marks.new old number result }
{
    if (old as usize) < marks.len() {
        marks[old as usize] = false;
    }
    if number == 0 {
        return true;
    }
    let place = number as usize;
    if place >= marks.len() || marks[place] {
        return false;
    }
    marks[place] = true;
    true
}
