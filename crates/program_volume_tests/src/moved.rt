//! A run over a volume of format 1: one of 88 pages gets its index page, and a smaller one is left.

use crate::commands::{RUN, SUM, answer_over, is_left};
use command_answers::memory_host::MemoryHost;
use std::alloc::{AllocError, Global};
use std::test::Fail;

/// Bytes at a place of a file.
struct Part(usize, &'static [u8]);

/// A volume of format 1 at depth 0, but for its pages: three words are used, the directory is the second, and map page 4 names page 5.
static FIRST: [Part; 7] = [
    Part(0, &[1, 80, 83, 86, 79, 76, 49, 1]),
    Part(8200, &[3]),
    Part(8208, &[1]),
    Part(8216, &[1]),
    Part(8220, &[4]),
    Part(16_384, &[5]),
    Part(20_480, &[0, 0, 0, 0, 0, 0, 0, 0, 7, 6, 5, 4, 3, 2, 1, 9, 8]),
];

/// What is written where it gets its index page: the second root page, of the first commit at depth 1, with index page 6, which names map page 4.
static MOVED: [Part; 8] = [
    Part(4096, &[1]),
    Part(12_288, &[1]),
    Part(12_296, &[3]),
    Part(12_304, &[1]),
    Part(12_312, &[1]),
    Part(12_316, &[6]),
    Part(16_380, &[1]),
    Part(24_576, &[4]),
];

// Puts bytes at a place of a file; those past its end are dropped.
fn put(file: &mut [u8], part: &Part) {
    let mut at = part.0;
    for byte in part.1 {
        if at < file.len() {
            file[at] = *byte;
        }
        at = at.saturating_add(1);
    }
}

fn put_all(file: &mut [u8], parts: &[Part]) {
    for part in parts {
        put(file, part);
    }
}

// The volume of format 1 with so many pages.
fn first(alloc: Global, pages: u8) -> Result<Vec<u8>, AllocError> {
    let mut file = vec![in alloc; 0u8; 4096 * pages as usize]?;
    put_all(&mut file, &FIRST);
    if let Some(place) = file.get_mut(8) {
        *place = pages;
    }
    Ok(file)
}

// The same where it was moved.
fn moved(alloc: Global, pages: u8) -> Result<Vec<u8>, AllocError> {
    let mut file = first(alloc, pages)?;
    put_all(&mut file, &MOVED);
    Ok(file)
}

#[test]
fn a_small_volume_is_left(rt: HostRuntime) -> Result<(), Fail> {
    let file = first(rt.alloc(), 64)?;
    assert!(rt; is_left(rt.alloc(), &file, SUM, 0));
    let file = first(rt.alloc(), 87)?;
    assert!(rt; is_left(rt.alloc(), &file, SUM, 0));
    Ok(())
}

// Whether a run over this file tells the sum, and leaves the other one.
fn is_run(alloc: Global, file: &[u8], left: &[u8]) -> bool {
    match answer_over(alloc, RUN, file, &[]) {
        Ok(answer) => answer.is(SUM, 0) && answer.host().contents() == left,
        Err(_) => false,
    }
}

#[test]
fn a_large_volume_gets_its_index_page(rt: HostRuntime) -> Result<(), Fail> {
    let file = first(rt.alloc(), 88)?;
    let left = moved(rt.alloc(), 88)?;
    assert!(rt; is_run(rt.alloc(), &file, &left));
    assert!(rt; is_left(rt.alloc(), &left, SUM, 0));
    Ok(())
}

// Whether what a stop leaves at this moment, with this byte where anything may stand, is a volume over which the sum is told.
fn is_image(alloc: Global, host: &MemoryHost, moment: u64, filler: u8) -> bool {
    match host.crash(alloc, moment, filler) {
        Ok(image) => is_summed(alloc, &image),
        Err(_) => false,
    }
}

fn is_summed(alloc: Global, file: &[u8]) -> bool {
    match answer_over(alloc, RUN, file, &[]) {
        Ok(answer) => answer.is(SUM, 0),
        Err(_) => false,
    }
}

// The same with either byte.
fn are_images(alloc: Global, host: &MemoryHost, moment: u64) -> bool {
    is_image(alloc, host, moment, 0) && is_image(alloc, host, moment, 255)
}

#[test]
fn a_stop_of_the_move_leaves_a_volume(rt: HostRuntime) -> Result<(), Fail> {
    let file = first(rt.alloc(), 88)?;
    let answer = answer_over(rt.alloc(), RUN, &file, &[])?;
    for moment in 0..answer.host().clock() {
        assert!(rt;
            are_images(rt.alloc(), answer.host(), moment),
            "moment {moment}"
        );
    }
    Ok(())
}

// Whether a run over this file by a host that fails at this call tells of the device, and what it leaves at the end is a volume.
fn is_stopped(alloc: Global, file: &[u8], call: u64) -> bool {
    match answer_over(alloc, RUN, file, &[call]) {
        Ok(answer) => {
            answer.is(b"device fault\n", 6)
                && are_images(alloc, answer.host(), answer.host().clock())
        }
        Err(_) => false,
    }
}

// The volume is attached by seven calls, committed by six, and attached with its index page by eight.
#[test]
fn each_fault_of_the_move_leaves_a_volume(rt: HostRuntime) -> Result<(), Fail> {
    let file = first(rt.alloc(), 88)?;
    for call in 0..21 {
        assert!(rt; is_stopped(rt.alloc(), &file, call), "call {call}");
    }
    Ok(())
}
