//! How many pages are held while a small volume is written, switched and pinned.

ghost use Rattle.std.specs.Prelude.{◌≤◌};

use crate::steps::{Step, first_wrong};
use page_map::PageMap;
use std::alloc::Global;
use std::test::Fail;

const SWITCHED: [Step; 7] = [
    Step::Held(6),
    Step::PutAll,
    Step::Switch,
    Step::Held(18),
    Step::PutAll,
    Step::Switch,
    Step::Held(18),
];

const PINNED: [Step; 14] = [
    Step::PutAll,
    Step::Switch,
    Step::Pin(0),
    Step::Held(18),
    Step::PutAll,
    Step::Switch,
    Step::Held(31),
    Step::Put(0, true),
    Step::Held(32),
    Step::Put(1, false),
    Step::Held(32),
    Step::Unpin(0),
    Step::Put(1, true),
    Step::Held(20),
];

/// Two pins hold one list, and one of them is let go. Then both hold another.
const PINNED_TWICE: [Step; 16] = [
    Step::PutAll,
    Step::Switch,
    Step::Pin(0),
    Step::Pin(1),
    Step::Held(18),
    Step::PutAll,
    Step::Switch,
    Step::Held(31),
    Step::Unpin(0),
    Step::Held(31),
    Step::Pin(0),
    Step::Held(31),
    Step::Pin(1),
    Step::Held(18),
    Step::Unpin(1),
    Step::Held(18),
];

/// The map of a new volume of 32 pages: map page 4 names page 5.
fn new_volume(alloc: Global, pins: u32) -> Result<PageMap, Fail>
    requires { pins ≤ 8 }
{
    let mut map = PageMap::new(alloc, 13, 32)?;
    map.reserve_pins(alloc, pins)?;
    let mut bytes = [0; 4096];
    bytes[0] = 5;
    if !map.claim(4) || map.read_map_page(0, 1, &bytes).is_err() {
        return Err(Fail::new("a new volume"));
    }
    map.settle(&[4]);
    Ok(map)
}

#[test]
fn holds_what_was_committed_and_what_is_staged(rt: HostRuntime) -> Result<(), Fail> {
    let mut map = new_volume(rt.alloc(), 0)?;
    assert_eq!(rt; first_wrong(&mut map, &SWITCHED), None);
    Ok(())
}

#[test]
fn holds_what_a_pin_holds(rt: HostRuntime) -> Result<(), Fail> {
    let mut map = new_volume(rt.alloc(), 2)?;
    assert_eq!(rt; first_wrong(&mut map, &PINNED), None);
    Ok(())
}

#[test]
fn holds_what_one_of_two_pins_holds(rt: HostRuntime) -> Result<(), Fail> {
    let mut map = new_volume(rt.alloc(), 2)?;
    assert_eq!(rt; first_wrong(&mut map, &PINNED_TWICE), None);
    Ok(())
}
