//! The calls of the host that a run makes: where none of them fails, and where each of them does.

use crate::outcome::{put_run, put_told};
use crate::settings::Settings;
use ps_base::code_unit::CodeUnit;
use std::alloc::{AllocError, Global};
use unit_rows::row_words::parted;
use unit_rows::table_rows::Buffer;
use unit_rows::{bytes_of, line_at};

// How many calls the lines of a field name, of which the first one says what the run returns.
fn count_of(field: &[u8]) -> u64 {
    let mut count = 0u64;
    for byte in field {
        if *byte == b'\n' {
            count = count.saturating_add(1);
        }
    }
    count
}

/// Writes what is wanted: where a call fails, an output failure, by no further call, and where none of them does, what the field says, by exactly these
/// calls.
pub fn put_calls_wanted(out: &mut Buffer, field: &[u8]) {
    let count = count_of(field);
    for failing in 0..count {
        out.put("Output");
        put_told_until(out, field, failing, failing.saturating_add(1));
    }
    // The call after the last one would fail, and there is none.
    out.bytes(line_at(field, 0));
    put_told_until(out, field, count, count);
}

// Tells so many calls, and what the calls of a field tell where the one of this number fails.
fn put_told_until(out: &mut Buffer, field: &[u8], failing: u64, calls: u64) {
    match told_until(out.alloc(), field, failing) {
        Ok(told) => put_told(out, Some(calls), &told),
        Err(_) => out.fail(),
    }
}

// What the calls of a field tell where the one of this number fails: all that those before it tell, and of its own bytes the first half, rounded
// down.
fn told_until(alloc: Global, field: &[u8], failing: u64) -> Result<Vec<u8>, AllocError> {
    let mut told = Vec::new(alloc);
    let (_, lines) = parted(field, b'\n');
    let mut number = 0u64;
    for line in lines.split(|byte| *byte == b'\n') {
        if number <= failing {
            tell(alloc, line, number == failing, &mut told)?;
        }
        number = number.saturating_add(1);
    }
    Ok(told)
}

// Puts the bytes of a line, or the first half of them.
fn tell(alloc: Global, line: &[u8], is_half: bool, told: &mut Vec<u8>) -> Result<(), AllocError> {
    let bytes = bytes_of(alloc, line)?;
    told.extend_from_slice(front_of(&bytes, is_half))
}

// All bytes, or the first half of them.
fn front_of(bytes: &[u8], is_half: bool) -> &[u8] {
    if !is_half {
        return bytes;
    }
    let (front, _) = bytes.split_at(bytes.len() / 2);
    front
}

/// Writes what is found.
pub fn put_calls_found(out: &mut Buffer, settings: Settings, unit: &CodeUnit, field: &[u8]) {
    for failing in 0..=count_of(field) {
        put_run(out, settings, unit, b"", Some(failing));
    }
}
