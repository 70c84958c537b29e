//! Thousands of calls beside a plain map.

ghost use Rattle.std.specs.Prelude.{◌≡◌, ◌<◌};

use crate::map_pages::read;
use crate::plain::PlainMap;
use crate::steps::pinned;
use page_map::{MapFault, PageMap};
use std::alloc::{AllocError, Global};
use std::test::Fail;

const LOGICAL: u32 = 12;

const PAGES: u32 = 48;

const PINS: u32 = 3;

/// Numbers that look random, from one to the next.
#[derive(Clone, Copy)]
struct Numbers {
    state: u64,
}

impl Numbers {
    /// A number below a limit, which isn't 0.
    fn below(&mut self, limit: u32) -> u32
        requires { 0 < limit }
        ensures { result < limit }
    {
        self.state = self
            .state
            .wrapping_mul(6_364_136_223_846_793_005)
            .wrapping_add(1_442_695_040_888_963_407);
        ((self.state >> 40) % limit as u64) as u32
    }
}

/// A map and a plain one that is to be like it.
#[derive(Drop)]
struct Both {
    map: PageMap,
    plain: PlainMap,
}

impl Both {
    fn new(alloc: Global) -> Result<Both, AllocError> {
        let mut map = PageMap::new(alloc, LOGICAL, PAGES)?;
        map.reserve_pins(alloc, PINS)?;
        Ok(Both {
            map,
            plain: PlainMap::new(alloc, LOGICAL as usize, PAGES, PINS)?,
        })
    }

    /// Whether both hold as many pages, and have the same lists.
    fn are_alike(&self) -> bool {
        let map = &self.map;
        let mut all = map.held() as usize == self.plain.held();
        for page in 0..LOGICAL {
            if page < map.logical() {
                let at = page as usize;
                all = self.plain.committed.get(at).copied() == Some(map.committed(page)) && all;
                all = self.plain.staged.get(at).copied() == Some(map.staged(page)) && all;
                all = self.pins_are_alike(page) && all;
            }
        }
        all
    }

    /// Whether each pin has the same number for a logical page.
    fn pins_are_alike(&self, page: u32) -> bool {
        let mut all = true;
        for pin in 0..PINS {
            let wanted = self
                .plain
                .pins
                .get(pin as usize)
                .and_then(|list| list.get(page as usize).copied());
            all = wanted == pinned(&self.map, pin, page) && all;
        }
        all
    }

    /// Takes all free pages. Whether they are those of the plain map.
    fn drain(&mut self) -> bool {
        let mut all = true;
        for _ in 0..PAGES {
            if let Some(page) = self.map.take_free() {
                all = self.plain.claim(page) && all;
            }
        }
        all && self.map.take_free() == None && self.plain.held() == PAGES as usize
    }

    /// Stages a page for a logical one, in use before or not.
    fn stage(&mut self, page: u32, physical: u32) -> bool {
        if page >= self.map.logical() || physical < 4 || physical >= self.map.pages() {
            return true;
        }
        let alike = self.map.claim(physical) == self.plain.claim(physical);
        self.map.replace(page, physical);
        self.plain.replace(page, physical);
        alike
    }

    /// Puts a logical page in a free page.
    fn put(&mut self, page: u32) -> bool {
        if page >= self.map.logical() {
            return true;
        }
        match self.map.take_free() {
            Some(physical) => {
                self.map.replace(page, physical);
                let was_free = self.plain.claim(physical);
                self.plain.replace(page, physical);
                was_free
            }
            None => self.plain.held() == PAGES as usize,
        }
    }

    /// Reads the first numbers of a map page.
    fn read(&mut self, numbers: &mut Numbers) -> bool {
        let mut bytes = [0; 4096];
        let count = numbers.below(4);
        for index in 0..4 {
            bytes[4 * index] = numbers.below(PAGES) as u8;
        }
        let mut wanted = Ok(());
        for index in 0..count {
            let found = bytes[4 * index as usize] as u32;
            if wanted == Ok(()) {
                if self.plain.claim(found) {
                    self.plain.replace(index, found);
                } else {
                    wanted = Err(MapFault::BadNumber { index, found });
                }
            }
        }
        read(&mut self.map, count, &bytes) == Some(wanted)
    }

    /// Pins, or unpins.
    fn pin(&mut self, alloc: Global, pin: u32, has_committed: bool) -> Result<bool, AllocError> {
        if pin as usize >= self.map.pins() {
            return Ok(false);
        }
        if has_committed {
            self.map.pin(pin);
        } else {
            self.map.unpin(pin);
        }
        self.plain.set_pin(alloc, pin as usize, has_committed)?;
        Ok(true)
    }

    /// Commits, with one map page or two of any numbers.
    fn settle(&mut self, alloc: Global, map_pages: &[u32]) -> Result<bool, AllocError> {
        self.map.settle(map_pages);
        self.plain.settle(alloc, map_pages)?;
        Ok(true)
    }

    /// Does one of the calls. Whether both answer alike.
    fn call(&mut self, alloc: Global, numbers: &mut Numbers) -> Result<bool, AllocError> {
        let page = numbers.below(LOGICAL);
        let physical = numbers.below(PAGES + 2);
        let pin = numbers.below(PINS);
        match numbers.below(16) {
            0 => Ok(self.map.claim(physical) == self.plain.claim(physical)),
            1 => self.settle(alloc, &[physical]),
            2 => self.settle(alloc, &[physical, numbers.below(PAGES)]),
            3 | 4 => self.pin(alloc, pin, true),
            5 => self.pin(alloc, pin, false),
            6 => Ok(self.stage(page, physical)),
            7 => Ok(self.read(numbers)),
            8 => Ok(self.drain()),
            _ => Ok(self.put(page)),
        }
    }
}

/// The number of the first call after which both aren't alike.
fn first_apart(alloc: Global, seed: u64, calls: u32) -> Result<Option<u32>, AllocError> {
    let mut both = Both::new(alloc)?;
    let mut numbers = Numbers { state: seed };
    for number in 0..calls {
        if !both.call(alloc, &mut numbers)? || !both.are_alike() {
            return Ok(Some(number));
        }
    }
    Ok(None)
}

#[test]
fn is_like_a_plain_map(rt: HostRuntime) -> Result<(), Fail> {
    for seed in 1..9 {
        assert_eq!(rt; first_apart(rt.alloc(), seed, 2000)?, None);
    }
    Ok(())
}
