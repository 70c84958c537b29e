//! The edges of each call.

ghost use Rattle.std.specs.Prelude.{◌≤◌};

use crate::steps::{Step, first_wrong};
use page_map::PageMap;
use std::alloc::{AllocError, Global};
use std::test::Fail;

/// Of twelve pages.
const CLAIMS: [Step; 14] = [
    Step::Held(4),
    Step::Claim(0, false),
    Step::Claim(1, false),
    Step::Claim(2, false),
    Step::Claim(3, false),
    Step::Claim(4, true),
    Step::Claim(4, false),
    Step::Claim(11, true),
    Step::Claim(12, false),
    Step::Claim(13, false),
    Step::Claim(u32::MAX, false),
    Step::Claim(7, true),
    Step::Claim(4, false),
    Step::Held(7),
];

/// Of nine pages. A page that is made free is given out again, though it lies before those that were.
const TAKEN: [Step; 12] = [
    Step::Claim(6, true),
    Step::Take(Some(4)),
    Step::Take(Some(5)),
    Step::Take(Some(7)),
    Step::Take(Some(8)),
    Step::Take(None),
    Step::Take(None),
    Step::Held(9),
    Step::Settle(8, 4),
    Step::Held(6),
    Step::Take(Some(5)),
    Step::Take(Some(6)),
];

/// Of eight pages: map pages may be named that are free, that there are not, and twice.
const SETTLED: [Step; 9] = [
    Step::Settle(5, 5),
    Step::Held(5),
    Step::Claim(5, false),
    Step::Claim(4, true),
    Step::Settle(0, 3),
    Step::Held(4),
    Step::Settle(8, u32::MAX),
    Step::Held(4),
    Step::Claim(5, true),
];

/// None that is staged in a page's place keeps it until it is settled.
const STAGED: [Step; 13] = [
    Step::Stage(1, 6),
    Step::Lists(0, 0, 0),
    Step::Lists(1, 0, 6),
    Step::Lists(2, 0, 0),
    Step::Settle(0, 0),
    Step::Lists(0, 0, 0),
    Step::Lists(1, 6, 6),
    Step::StageNone(1),
    Step::Lists(1, 6, 0),
    Step::Claim(6, false),
    Step::Settle(0, 0),
    Step::Lists(1, 0, 0),
    Step::Claim(6, true),
];

/// What is staged alone isn't pinned, and what is pinned stays.
const PINNED: [Step; 19] = [
    Step::Pinned(0, 0, 0),
    Step::Stage(0, 6),
    Step::Pin(0),
    Step::Pinned(0, 0, 0),
    Step::Settle(0, 0),
    Step::Pin(0),
    Step::Pinned(0, 0, 6),
    Step::Pinned(0, 1, 0),
    Step::Pinned(1, 0, 0),
    Step::StageNone(0),
    Step::Unpin(0),
    Step::Held(5),
    Step::Pin(0),
    Step::Settle(0, 0),
    Step::Lists(0, 0, 0),
    Step::Pinned(0, 0, 6),
    Step::Held(5),
    Step::Unpin(0),
    Step::Held(4),
];

/// The first step that goes wrong on a new map of three logical pages, with two pins.
fn wrong_of(alloc: Global, pages: u32, steps: &[Step]) -> Result<Option<usize>, AllocError> {
    let mut map = PageMap::new(alloc, 3, pages)?;
    map.reserve_pins(alloc, 2)?;
    Ok(first_wrong(&mut map, steps))
}

#[test]
fn claims_free_pages_once(rt: HostRuntime) -> Result<(), Fail> {
    assert_eq!(rt; wrong_of(rt.alloc(), 12, &CLAIMS)?, None);
    Ok(())
}

#[test]
fn gives_out_each_free_page_once(rt: HostRuntime) -> Result<(), Fail> {
    assert_eq!(rt; wrong_of(rt.alloc(), 9, &TAKEN)?, None);
    Ok(())
}

#[test]
fn settles_over_any_map_pages(rt: HostRuntime) -> Result<(), Fail> {
    assert_eq!(rt; wrong_of(rt.alloc(), 8, &SETTLED)?, None);
    Ok(())
}

#[test]
fn stages_and_commits(rt: HostRuntime) -> Result<(), Fail> {
    assert_eq!(rt; wrong_of(rt.alloc(), 12, &STAGED)?, None);
    Ok(())
}

#[test]
fn pins_what_is_committed(rt: HostRuntime) -> Result<(), Fail> {
    assert_eq!(rt; wrong_of(rt.alloc(), 12, &PINNED)?, None);
    Ok(())
}

/// Whether a map of so few pages has none that is free.
fn has_none(alloc: Global, pages: u32) -> Result<bool, AllocError> {
    let mut map = PageMap::new(alloc, 0, pages)?;
    let before = map.held() == pages && map.take_free() == None;
    map.settle(&[]);
    Ok(before && map.held() == pages && map.pages() == pages && map.take_free() == None)
}

#[test]
fn has_no_free_page_among_the_first_four(rt: HostRuntime) -> Result<(), Fail> {
    for pages in 0..5 {
        assert!(rt; has_none(rt.alloc(), pages)?);
    }
    Ok(())
}
