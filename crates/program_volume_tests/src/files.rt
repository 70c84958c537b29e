//! What a run tells of a file that is a volume, and of one that is none, is damaged or fails.

use crate::commands::{RUN, SUM, is_left};
use command_answers::new_volume;
use std::alloc::{AllocError, Global};
use std::test::Fail;

#[test]
fn a_run_leaves_its_volume(rt: HostRuntime) -> Result<(), Fail> {
    let made = new_volume(rt.alloc(), "32")?;
    assert!(rt; is_left(rt.alloc(), &made, SUM, 0));
    Ok(())
}

// Bytes with a 1, the open gate, before so many zeros.
fn opened(alloc: Global, count: usize) -> Result<Vec<u8>, AllocError> {
    let mut bytes = vec![in alloc; 0u8; count]?;
    if let Some(gate) = bytes.first_mut() {
        *gate = 1;
    }
    Ok(bytes)
}

// How many bytes a file has whose gate is open, where it has any; and what is output.
struct Short(usize, &'static [u8]);

static SHORT: [Short; 4] = [
    Short(0, b"not a volume: 0 bytes, gate 0\n"),
    Short(1, b"not a volume: 1 bytes, gate 1\n"),
    Short(12_288, b"not a volume: 12288 bytes, gate 1\n"),
    Short(16_383, b"not a volume: 16383 bytes, gate 1\n"),
];

fn is_short(alloc: Global, row: &Short) -> bool {
    match opened(alloc, row.0) {
        Ok(bytes) => is_left(alloc, &bytes, row.1, 9),
        Err(_) => false,
    }
}

#[test]
fn a_short_file_is_no_volume(rt: HostRuntime) {
    for (place, row) in SHORT.iter().enumerate() {
        assert!(rt; is_short(rt.alloc(), row), "row {place}");
    }
}

// A byte of a volume of 32 pages, what stands there instead, what is output, and the status.
struct Forged(usize, u8, &'static [u8], u8);

static FORGED: [Forged; 16] = [
    Forged(0, 0, b"not a volume: 131072 bytes, gate 0\n", 9),
    Forged(0, 255, b"not a volume: 131072 bytes, gate 255\n", 9),
    Forged(
        1,
        0,
        b"damaged at 1: found 54203818332928, wanted 54203818333008\n",
        10,
    ),
    Forged(7, 0, b"damaged at 7: found 0, wanted 1\n", 10),
    Forged(7, 3, b"damaged at 7: found 3, wanted 2\n", 10),
    Forged(8, 31, b"damaged at 8: found 31, wanted 32\n", 10),
    Forged(8, 33, b"damaged at 8: found 32, wanted 33\n", 10),
    Forged(10, 32, b"damaged at 8: found 2097184, wanted 1048576\n", 10),
    Forged(8200, 0, b"damaged at 8200: found 0, wanted 1\n", 10),
    Forged(8202, 1, b"damaged at 8200: found 65537, wanted 6656\n", 10),
    Forged(8216, 2, b"damaged at 8216: found 2, wanted 1\n", 10),
    Forged(8208, 1, b"damaged at 8208: found 1, wanted 0\n", 10),
    Forged(12_284, 1, b"damaged at 12284: found 1, wanted 0\n", 10),
    Forged(8220, 3, b"damaged at 8220: found 3, wanted 4\n", 10),
    Forged(16_384, 4, b"damaged at 16384: found 4, wanted 0\n", 10),
    Forged(4096, 1, b"damaged at 12296: found 0, wanted 1\n", 10),
];

// A volume with another byte at this place.
fn with_byte(alloc: Global, made: &[u8], at: usize, byte: u8) -> Result<Vec<u8>, AllocError> {
    let mut bytes = Vec::from_slice(alloc, made)?;
    if let Some(place) = bytes.get_mut(at) {
        *place = byte;
    }
    Ok(bytes)
}

fn is_forged(alloc: Global, made: &[u8], row: &Forged) -> bool {
    match with_byte(alloc, made, row.0, row.1) {
        Ok(bytes) => is_left(alloc, &bytes, row.2, row.3),
        Err(_) => false,
    }
}

#[test]
fn a_forged_volume_is_damaged(rt: HostRuntime) -> Result<(), Fail> {
    let made = new_volume(rt.alloc(), "32")?;
    for (place, row) in FORGED.iter().enumerate() {
        assert!(rt; is_forged(rt.alloc(), &made, row), "row {place}");
    }
    Ok(())
}

// Whether a run over a new volume tells of the device where this call fails, and writes nothing.
fn is_told(alloc: Global, call: u64) -> bool {
    match RUN.answer(alloc, &[call]) {
        Ok(answer) => answer.is(b"device fault\n", 6) && answer.host().writes() == 0,
        Err(_) => false,
    }
}

// The volume is attached twice, by seven calls each: to be moved into the last form, and then with its store.
#[test]
fn a_device_that_fails_is_told(rt: HostRuntime) {
    for call in 0..14 {
        assert!(rt; is_told(rt.alloc(), call), "call {call}");
    }
}
