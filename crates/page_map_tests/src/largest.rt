//! The largest volume: 1,048,576 pages, of which 499,320 are logical.

use crate::steps::{Step, first_wrong};
use page_map::PageMap;
use std::alloc::{AllocError, Global};
use std::test::Fail;

/// Both copies of each logical page are held while the old one is pinned.
const PINNED: [Step; 13] = [
    Step::PutAll,
    Step::Switch,
    Step::Held(499_325),
    Step::Pin(0),
    Step::Pin(7),
    Step::PutAll,
    Step::Switch,
    Step::Held(998_645),
    Step::Unpin(7),
    Step::Held(998_645),
    Step::Unpin(0),
    Step::Held(499_325),
    Step::Take(Some(4)),
];

/// One logical page is put at a time.
const SETTLED: [Step; 13] = [
    Step::PutAll,
    Step::Switch,
    Step::Put(0, true),
    Step::Switch,
    Step::Put(1, true),
    Step::Switch,
    Step::Put(2, true),
    Step::Held(499_326),
    Step::Switch,
    Step::Put(499_319, true),
    Step::Switch,
    Step::Held(499_325),
    Step::Put(499_320, false),
];

/// The first step that goes wrong on a new map of the largest volume with eight pins.
fn wrong_of(alloc: Global, steps: &[Step]) -> Result<Option<usize>, AllocError> {
    let mut map = PageMap::new(alloc, 499_320, 1_048_576)?;
    map.reserve_pins(alloc, 8)?;
    Ok(first_wrong(&mut map, steps))
}

#[test]
fn holds_two_copies_of_each_page(rt: HostRuntime) -> Result<(), Fail> {
    assert_eq!(rt; wrong_of(rt.alloc(), &PINNED)?, None);
    Ok(())
}

#[test]
fn is_settled_again_and_again(rt: HostRuntime) -> Result<(), Fail> {
    assert_eq!(rt; wrong_of(rt.alloc(), &SETTLED)?, None);
    Ok(())
}
