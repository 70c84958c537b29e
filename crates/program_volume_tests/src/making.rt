//! How a volume is made, and what a stop leaves of it meanwhile.

use crate::commands::{RUN, SUM, answer_over, format};
use command_answers::Answer;
use command_answers::memory_host::MemoryHost;
use std::alloc::{AllocError, Global};

/// How many bytes a volume of 32 pages has.
const VOLUME_BYTES: usize = 131_072;

// A volume of 64 pages was made.
fn is_made(answer: &Answer) -> bool {
    answer.is(b"", 0) && answer.host().contents().len() == 262_144
}

// Whether no second one is made over a host with these bytes, and they are left.
fn is_kept(alloc: Global, host: MemoryHost, bytes: &[u8]) -> bool {
    match format("64").over(alloc, host) {
        Ok(answer) => { answer.is(b"already a volume\n", 14) && answer.host().contents() == bytes }
        Err(_) => false,
    }
}

// Whether a volume is made, and then no second one over the same host.
fn is_made_once(alloc: Global) -> Result<bool, AllocError> {
    let made = answer_over(alloc, format("64"), b"", &[])?;
    if !is_made(&made) {
        return Ok(false);
    }
    let bytes = Vec::from_slice(alloc, made.host().contents())?;
    Ok(is_kept(alloc, made.into_host(), &bytes))
}

#[test]
fn a_volume_is_made_once(rt: HostRuntime) {
    assert!(rt; is_made_once(rt.alloc()) == Ok(true));
}

// The run tells the sum over this image where it is a volume, and that it is none where it isn't.
fn is_whole_or_none(answer: &Answer, image: &[u8]) -> bool {
    match answer.status() {
        0 => answer.told() == SUM && image.len() == VOLUME_BYTES,
        9 => true,
        _ => false,
    }
}

// The same of the image that a stop leaves at this moment, with this byte where anything may stand.
fn is_image(alloc: Global, host: &MemoryHost, moment: u64, filler: u8) -> Result<bool, AllocError> {
    let image = host.crash(alloc, moment, filler)?;
    let answer = answer_over(alloc, RUN, &image, &[])?;
    Ok(is_whole_or_none(&answer, &image))
}

// The same of each image from this moment on.
fn are_images(alloc: Global, host: &MemoryHost, from: u64) -> bool {
    for moment in from..host.clock() {
        for filler in [0, 255] {
            if is_image(alloc, host, moment, filler) != Ok(true) {
                return false;
            }
        }
    }
    true
}

// Whether the making is answered so where these calls fail, and leaves such images from this moment on.
fn is_stopped(alloc: Global, failing: &[u64], from: u64, told: &[u8], status: u8) -> bool {
    match answer_over(alloc, format("32"), b"", failing) {
        Ok(answer) => answer.is(told, status) && are_images(alloc, answer.host(), from),
        Err(_) => false,
    }
}

// How many calls the making takes.
fn calls_of_making(alloc: Global) -> Result<u64, AllocError> {
    Ok(answer_over(alloc, format("32"), b"", &[])?.host().clock())
}

#[test]
fn a_stop_while_a_volume_is_made_leaves_none_or_all(rt: HostRuntime) {
    assert!(rt; is_stopped(rt.alloc(), &[], 0, b"", 0));
    let Ok(calls) = calls_of_making(rt.alloc()) else {
        panic!(rt; "out of memory");
    };
    assert!(rt; calls > 0);
    for call in 0..calls {
        assert!(rt;
            is_stopped(rt.alloc(), &[call], call, b"device fault\n", 6),
            "call {call}"
        );
    }
}
