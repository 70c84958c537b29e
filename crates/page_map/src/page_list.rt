ghost use Rattle.std.specs.Prelude.{◌≡◌, ◌<◌, ◌≤◌, IfOk, length, slice_index, slice_set};
ghost use Rattle.page_map.specs.Pages.{no_pages};

use std::alloc::{AllocError, Global};
use std::marker::Model;

/// Of each logical page the number of the physical page that holds it, or 0 for none.
#[derive(Drop)]
pub(crate) struct PageList {
    numbers: Vec<u32>,
}

impl Model for PageList {
    ghost use Rattle.std.specs.Prelude.{ℕ, List};

    ghost Value = { List ℕ };

    ghost view = { λ list. list.numbers.items };
}

impl PageList {
    /// A list of so many logical pages that names no page.
    pub fn new(alloc: Global, count: u32) -> Result<PageList, AllocError>
        ensures { IfOk result (λ list. list ≡ no_pages count) }
    {
        let mut numbers = Vec::with_capacity(alloc, count as usize)?;
        numbers.resize(count as usize, 0)?;
        Ok(PageList { numbers })
    }

    /// How many logical pages it is of.
    pub fn len(&self) -> usize
        ensures { result ≡ length self.now }
    {
        self.numbers.len()
    }

    /// All its numbers.
    pub fn numbers(&self) -> &[u32]
        ensures { result.now ≡ self.now }
    {
        &self.numbers
    }

    /// The number of a logical page.
    pub fn number(&self, page: u32) -> u32
        requires { page < length self.now }
        ensures { result ≡ slice_index self.now page }
    {
        self.numbers[page as usize]
    }

    /// The number of a logical page, or 0 past the last one.
    pub fn number_or_none(&self, page: usize) -> u32
        ensures { result ≡ slice_index self.now page }
    {
        if page < self.numbers.len() {
            self.numbers[page]
        } else {
            0
        }
    }

    /// Gives a logical page another number.
    pub fn set(&mut self, page: usize, number: u32)
        requires { page < length self.old }
        ensures { self.new ≡ slice_set self.old page number }
    {
        self.numbers[page] = number;
    }

    /// Takes all numbers from another list.
    pub fn copy_from(&mut self, other: &PageList)
        requires { length self.old ≡ length other.now }
        ensures { self.new ≡ other.now }
    {
        self.numbers.copy_from_slice(&other.numbers);
    }

    /// Names no page any more.
    pub fn clear(&mut self)
        ensures { self.new ≡ no_pages (length self.old) }
    {
        self.numbers.fill(0);
    }
}
