//! The calls of the device that attaching makes.

use crate::files::{FIRST, INDEXED, Part, SMALL, file_of, is_found};
use paged_volume::volume_parts::OpenFault;
use std::alloc::Global;

// The volume is found in so many calls, and in no fewer.
fn is_found_in(alloc: Global, size: usize, parts: &[Part], calls: u64, depth: u32) -> bool {
    let Ok(file) = file_of(alloc, size, parts) else {
        return false;
    };
    for few in 0..calls {
        if !is_found(alloc, &file, few, Err(OpenFault::Device)) {
            return false;
        }
    }
    is_found(alloc, &file, calls, Ok(depth))
}

#[test]
fn a_small_volume_is_found_in_seven_calls(rt: HostRuntime) {
    assert!(rt; is_found_in(rt.alloc(), 262_144, &SMALL, 7, 0));
}

#[test]
fn a_volume_with_an_index_page_is_found_in_eight_calls(rt: HostRuntime) {
    assert!(rt; is_found_in(rt.alloc(), 360_448, &INDEXED, 8, 1));
}

#[test]
fn a_volume_of_format_1_is_found(rt: HostRuntime) {
    assert!(rt; is_found_in(rt.alloc(), 360_448, &FIRST, 7, 0));
}
