ghost use Rattle.std.specs.Prelude.{◌≡◌, ℕ, ◌+◌, ◌*◌, ◌<◌, ◌≤◌, ◌⊎◌, [], Some, None, true, false, not, ◌&&◌, ◌||◌, IfOk, OnErr, IfErr, OnOk, MatchBool, MatchOption, IfSome, length, replicate, slice_index, slice_index_or, slice_set};
ghost use Rattle.std.specs.Bool.{OnTrue};
ghost use Rattle.page_map.specs.Pages.{is_free, held_of, free_where, may_be_free, IsTaken, names, one_names, no_pages};
ghost use Rattle.page_map.specs.Numbers.{number_at, first_numbers, bytes_of, numbers_from};
ghost use Rattle.page_map.specs.inside.Releasing.{ReleasesUnstaged};
ghost use Rattle.page_map.specs.Map.{IsMap, AreGood, IsFault, NoneIsPinned, fresh_map, with_taken, with_staged, with_read, settled, with_pin, with_pins};

use crate::fault::MapFault;
use crate::free_pages::FreePages;
use crate::marked::MarkedList;
use crate::noted::Noted;
use crate::numbers::{NUMBERS, read_number, write_number};
use crate::page_list::PageList;
use std::alloc::{AllocError, Global};
use std::marker::Model;

/// Which physical pages of a volume are in use. Of each logical page it has the number of the physical page as it was committed, as it is
/// staged, and as each pin holds it; 0 stands for none. Pages 0 to 3 are never free. A page that is taken is free again only by `settle`,
/// `pin` or `unpin`.
#[derive(Drop)]
pub struct PageMap {
    committed: PageList,
    staged: MarkedList,
    // The list that each pin holds. One that holds nothing names no page.
    pins: Vec<PageList>,
    free: FreePages,
    // Pages that were taken, and such as were staged and aren't any more, since the last settling: it makes the pages free that are loose. None where
    // they were too many.
    loose: Noted,
}

impl Model for PageMap {
    ghost use Rattle.page_map.specs.Map.{MapView};

    ghost Value = { MapView };

    ghost use Rattle.page_map.specs.inside.Kept.{map_of, IsKept};

    ghost view = { map_of };

    ghost invariant = { IsKept };
}

impl PageMap {
    /// A map of so many logical pages and so many physical ones. Both lists name no page, no pin is there, and every page from 4 on is free.
    pub fn new(alloc: Global, logical: u32, pages: u32) -> Result<PageMap, AllocError>
        ensures { IfOk result (λ map. map ≡ fresh_map logical pages) }
    {
        Ok(PageMap {
            committed: PageList::new(alloc, logical)?,
            staged: MarkedList::new(alloc, logical, pages)?,
            pins: Vec::new(alloc),
            free: FreePages::new(alloc, pages)?,
            loose: Noted::new(alloc)?,
        })
    }

    /// A law: what is so of every page map.
    pub fn sound(&self)
        ensures { IsMap self.now }
    {
        let _pages = self.free.len();
    }

    /// How many logical pages it is of.
    pub fn logical(&self) -> u32
        ensures { result ≡ length self.now.committed }
    {
        self.committed.len() as u32
    }

    /// How many physical pages it is of.
    pub fn pages(&self) -> u32
        ensures { result ≡ length self.now.free }
    {
        self.free.len()
    }

    /// How many physical pages aren't free.
    pub fn held(&self) -> u32
        ensures { result ≡ held_of self.now.free }
    {
        self.free.held()
    }

    /// Takes that page. False, and then nothing changes, exactly where the page is below 4, not below the number of pages, or not free.
    pub fn claim(&mut self, physical: u32) -> bool
        ensures answer { result ≡ is_free self.old.free physical }
        ensures page { OnTrue result (IsTaken self.new.free physical) }
        ensures taken { MatchBool result (self.new ≡ with_taken self.old physical) (self.new ≡ self.old) }
    {
        if !self.free.claim(physical) {
            return false;
        }
        self.loose.note(physical);
        true
    }

    /// The physical page that is committed for a logical page, or 0 for none.
    pub fn committed(&self, page: u32) -> u32
        requires { page < length self.now.committed }
        ensures { result ≡ slice_index self.now.committed page }
    {
        self.committed.number(page)
    }

    /// The physical page that is staged for a logical page, or 0 for none.
    pub fn staged(&self, page: u32) -> u32
        requires { page < length self.now.committed }
        ensures { result ≡ slice_index self.now.staged page }
    {
        self.staged.list().number(page)
    }

    /// Takes a free page. None, and then nothing changes, exactly where none is free.
    pub fn take_free(&mut self) -> Option<u32>
        ensures found { MatchOption result ((page : ℕ) → is_free self.old.free page ≡ false) (λ page. is_free self.old.free page ≡ true) }
        ensures page { IfSome result (λ page. IsTaken self.new.free page) }
        ensures taken { MatchOption result (self.new ≡ self.old) (λ page. self.new ≡ with_taken self.old page) }
    {
        let page = self.free.take()?;
        self.loose.note(page);
        Some(page)
    }

    /// Stages a physical page for a logical one, or 0 for none. The physical page was taken.
    pub fn replace(&mut self, page: u32, physical: u32)
        requires page { page < length self.old.committed }
        requires physical { (physical ≡ 0) ⊎ IsTaken self.old.free physical }
        ensures { self.new ≡ with_staged self.old page physical }
    {
        let old = self.staged.list().number(page);
        if old == physical {
            return;
        }
        self.staged.set(page, physical);
        self.loose.note(old);
    }

    /// Takes a page that was read, and stages it. False, and then nothing changes, where it isn't free.
    fn take_read(&mut self, page: u32, physical: u32) -> bool
        requires { page < length self.old.committed }
        ensures answer { result ≡ is_free self.old.free physical }
        ensures taken { MatchBool result (self.new ≡ with_staged (with_taken self.old physical) page physical) (self.new ≡ self.old) }
    {
        if !self.claim(physical) {
            return false;
        }
        self.replace(page, physical);
        true
    }

    /// Reads the first `count` numbers of a map page into the staged list, and takes their pages. `number` is that of the map page, which
    /// is of 1,024 logical pages from `1024 * number` on. BadNumber exactly where one of them is below 4, not below the number of pages, or
    /// in use already; then the numbers before it were read.
    pub fn read_map_page(&mut self, number: u32, count: u32, bytes: &[u8]) -> Result<(), MapFault>
        requires count { count ≤ 1024 }
        requires logical { 1024 * number + count ≤ length self.old.committed }
        requires bytes { length bytes.now ≡ 4096 }
        ensures ok { OnOk result (AreGood self.old bytes.now count) }
        ensures read { OnOk result (self.new ≡ with_read self.old number (first_numbers bytes.now count)) }
        ensures bad { IfErr result (λ fault. IsFault self.old number count bytes.now fault self.new) }
    {
        self.sound();
        let first = NUMBERS as u32 * number;
        for index in 0..count {
            let found = read_number(bytes, index as usize);
            if !self.take_read(first + index, found) {
                return Err(MapFault::BadNumber { index, found });
            }
        }
        Ok(())
    }

    /// Writes the staged numbers of a map page, and 0 past the last logical page.
    pub fn write_map_page(&self, number: u32, into: &mut [u8])
        requires { length into.old ≡ 4096 }
        ensures { into.new ≡ bytes_of (numbers_from self.now.staged (1024 * number) 1024) }
    {
        let first = NUMBERS * number as usize;
        for index in 0..NUMBERS {
            write_number(
                into,
                index,
                self.staged.list().number_or_none(first + index),
            );
        }
    }

    /// The staged list becomes the committed one. Then exactly those pages are in use that it names, or that `map_pages` or a pin names, and
    /// pages 0 to 3.
    pub fn settle(&mut self, map_pages: &[u32])
        ensures { self.new ≡ settled self.old map_pages.now }
    {
        release_unstaged(&mut self.free, &self.loose, &self.staged);
        self.free.hold(map_pages);
        self.free.hold_each(&self.pins);
        self.committed.copy_from(self.staged.list());
        self.loose.clear();
        note_all(&mut self.loose, map_pages);
    }

    /// Makes so many pins, which hold nothing, in place of those that there were. After an error the map is as before.
    pub fn reserve_pins(&mut self, alloc: Global, pins: u32) -> Result<(), AllocError>
        requires few { pins ≤ 8 }
        requires none { NoneIsPinned self.old }
        ensures ok { OnOk result (self.new ≡ with_pins self.old (replicate pins (no_pages (length self.old.committed)))) }
        ensures err { OnErr result (self.new ≡ self.old) }
    {
        self.pins = make_pins(alloc, pins, self.logical())?;
        Ok(())
    }

    /// How many pins there are.
    pub fn pins(&self) -> usize
        ensures { result ≡ length self.now.pins }
    {
        self.pins.len()
    }

    /// The pin holds the committed list, in place of what it held. A page that only the list given up names is free then.
    pub fn pin(&mut self, pin: u32)
        requires { pin < length self.old.pins }
        ensures { self.new ≡ with_pin self.old pin self.old.committed }
    {
        let pinned = &mut self.pins[pin as usize];
        self.free.release_named(pinned.numbers());
        pinned.copy_from(&self.committed);
        hold_all(
            &mut self.free,
            &self.committed,
            self.staged.list(),
            &self.pins,
        );
    }

    /// The pin holds nothing. A page that only the list given up names is free then.
    pub fn unpin(&mut self, pin: u32)
        requires { pin < length self.old.pins }
        ensures { self.new ≡ with_pin self.old pin (no_pages (length self.old.committed)) }
    {
        let pinned = &mut self.pins[pin as usize];
        self.free.release_named(pinned.numbers());
        pinned.clear();
        hold_all(
            &mut self.free,
            &self.committed,
            self.staged.list(),
            &self.pins,
        );
    }

    /// The physical page of a logical page in the list that the pin holds, or 0 for none.
    pub fn pinned(&self, pin: u32, page: u32) -> u32
        requires pin { pin < length self.now.pins }
        requires page { page < length self.now.committed }
        ensures { result ≡ slice_index (slice_index_or self.now.pins pin []) page }
    {
        self.pins[pin as usize].number(page)
    }
}

// Makes the pages free that aren't staged, of those that may be free: the loose ones alone, where these are told.
fn release_unstaged(free: &mut FreePages, loose: &Noted, staged: &MarkedList)
    ensures long { length free.new ≡ length free.old }
    ensures releases { ReleasesUnstaged free.old free.new loose.now staged.now }
{
    let (Some(numbers), Some(marks)) = (loose.numbers(), staged.marks()) else {
        free.release_all();
        free.hold(staged.list().numbers());
        return;
    };
    free.release_unmarked(numbers, marks);
}

// Notes each of these numbers.
fn note_all(noted: &mut Noted, numbers: &[u32])
    requires { noted.old ≡ Some [] }
    ensures { (noted.new ≡ None) ⊎ (noted.new ≡ Some numbers.now) }
{
    for number in numbers {
        noted.note(*number);
    }
}

// Takes the free ones of the pages that one of these lists names.
fn hold_all(free: &mut FreePages, committed: &PageList, staged: &PageList, pins: &[PageList])
    ensures { free.new ≡ free_where (length free.old) (λ p. is_free free.old p && not (names committed.now p || (names staged.now p || one_names pins.now p))) }
{
    free.hold(committed.numbers());
    free.hold(staged.numbers());
    free.hold_each(pins);
}

// So many lists that name no page.
fn make_pins(alloc: Global, pins: u32, logical: u32) -> Result<Vec<PageList>, AllocError>
    ensures { IfOk result (λ lists. lists.items ≡ replicate pins (no_pages logical)) }
{
    let mut lists = Vec::with_capacity(alloc, pins as usize)?;
    for _ in 0..pins {
        lists.push_reserved(PageList::new(alloc, logical)?);
    }
    Ok(lists)
}
