//! An area that has room for all of a unit, or for less.

use crate::sample::tried;
use proc_values::swizzle::fault::SwizzleFault;
use std::test::Fail;

#[test]
fn takes_the_last_word(rt: HostRuntime) -> Result<(), Fail> {
    assert_eq!(rt; tried(rt.alloc(), 39)?, (None, 40));
    Ok(())
}

#[test]
fn has_no_room_for_the_next_object(rt: HostRuntime) -> Result<(), Fail> {
    // The words of the area, the place of the object that doesn't fit, and its words.
    for (words, top, wanted) in [(38, 28, 12), (26, 21, 7), (19, 13, 8), (11, 7, 6)] {
        let full = SwizzleFault::AreaFull {
            top,
            wanted,
            size: words + 1,
        };
        assert_eq!(rt; tried(rt.alloc(), words)?, (Some(full), top));
    }
    Ok(())
}
