//! Bytes as a line of text: `\n` is the end of a line, `\\` is `\`, `\x` and two digits is the byte of that number in hex, `\` with a number,
//! `*` and a byte is so many of that byte, and any other byte stands for itself.

use row_words::table_rows::Buffer;
use row_words::{number_of, parted};
use std::alloc::{AllocError, Global};

/// So many equal bytes are written as a number of them.
const LONG_RUN: usize = 20;

/// The most bytes of a run.
const LONGEST_RUN: u64 = 1_048_576;

/// The bytes of a line.
pub fn bytes_of(alloc: Global, line: &[u8]) -> Result<Vec<u8>, AllocError> {
    let mut bytes = Vec::new(alloc);
    put_all(&mut bytes, line)?;
    Ok(bytes)
}

// Puts the bytes of a line.
fn put_all(bytes: &mut Vec<u8>, line: &[u8]) -> Result<(), AllocError> {
    let mut rest = line;
    for _ in 0..line.len() {
        rest = match rest {
            [] => rest,
            [b'\\', escaped @ ..] => put_escaped(bytes, escaped)?,
            [byte, behind @ ..] => {
                bytes.push(*byte)?;
                behind
            }
        };
    }
    Ok(())
}

// Puts the bytes of what stands after a `\`, and answers what stands after that.
fn put_escaped<'a>(bytes: &mut Vec<u8>, escaped: &'a [u8]) -> Result<&'a [u8], AllocError> {
    match escaped {
        [b'n', behind @ ..] => {
            bytes.push(b'\n')?;
            Ok(behind)
        }
        [b'\\', behind @ ..] => {
            bytes.push(b'\\')?;
            Ok(behind)
        }
        [b'x', high, low, behind @ ..] => {
            bytes.push(digit_of(*high).wrapping_mul(16) | digit_of(*low))?;
            Ok(behind)
        }
        _ => put_run(bytes, escaped),
    }
}

// The same of a run.
fn put_run<'a>(bytes: &mut Vec<u8>, run: &'a [u8]) -> Result<&'a [u8], AllocError> {
    let (digits, rest) = parted(run, b'*');
    let count = number_of(digits).unwrap_or(0).min(LONGEST_RUN);
    match rest {
        [] => Ok(rest),
        [byte, behind @ ..] => {
            for _ in 0..count {
                bytes.push(*byte)?;
            }
            Ok(behind)
        }
    }
}

// The value of a digit in hex.
fn digit_of(digit: u8) -> u8 {
    match digit {
        b'0'..=b'9' => digit.saturating_sub(b'0'),
        b'a'..=b'f' => digit.saturating_sub(b'a').saturating_add(10),
        _ => 0,
    }
}

/// Writes the line of these bytes.
pub fn put_line(out: &mut Buffer, bytes: &[u8]) {
    let mut last = 0u8;
    let mut count = 0usize;
    for byte in bytes {
        if *byte != last {
            put_bytes(out, last, count);
            last = *byte;
            count = 0;
        }
        count = count.saturating_add(1);
    }
    put_bytes(out, last, count);
}

// Writes so many of a byte.
fn put_bytes(out: &mut Buffer, byte: u8, count: usize) {
    if count >= LONG_RUN && is_plain(byte) {
        return put_long_run(out, byte, count);
    }
    for _ in 0..count {
        put_byte(out, byte);
    }
}

// Writes so many of a byte as their number.
fn put_long_run(out: &mut Buffer, byte: u8, count: usize) {
    out.put("\\");
    out.number(count as u64);
    out.put("*");
    out.bytes(&[byte]);
}

// Whether a byte stands for itself.
fn is_plain(byte: u8) -> bool {
    matches!(byte, b' '..=b'~') && byte != b'\\'
}

fn put_byte(out: &mut Buffer, byte: u8) {
    match byte {
        b'\n' => out.put("\\n"),
        b'\\' => out.put("\\\\"),
        _ if is_plain(byte) => out.bytes(&[byte]),
        _ => put_in_hex(out, byte),
    }
}

// Writes a byte by its two digits.
fn put_in_hex(out: &mut Buffer, byte: u8) {
    out.put(if byte < 16 { "\\x0" } else { "\\x" });
    out.hex(u64::from(byte));
}
