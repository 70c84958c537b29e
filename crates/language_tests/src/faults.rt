//! The first fault of a text, as a line of text.

use parsed_texts::ps_base::line::Line;
use parsed_texts::ps_tree::fault::ParseFault;
use parsed_texts::{TextFault, tree_of};
use row_words::parted;
use row_words::table_rows::Buffer;
use std::alloc::Global;

/// Writes the first fault of a text as its number, `@` and its line, and the token that is unexpected where one is; or `none`.
pub fn put_fault(out: &mut Buffer, text: &[u8]) {
    match tree_of(out.alloc(), text) {
        Ok(_) => out.put("none"),
        Err(TextFault::Parse(fault)) => put_shown(out, fault),
        Err(TextFault::TooLong | TextFault::Scan(_)) => out.fail(),
    }
}

fn put_shown(out: &mut Buffer, fault: ParseFault) {
    match fault {
        ParseFault::Unexpected { line, token } => {
            put_place(out, fault, line);
            out.put(" token ");
            out.number(u64::from(token));
        }
        ParseFault::TooNested { line } => put_place(out, fault, line),
        ParseFault::Memory => out.fail(),
    }
}

// The number of a fault and its line, which must be the one that the fault tells.
fn put_place(out: &mut Buffer, fault: ParseFault, line: Line) {
    match fault.number() {
        Some(number) if fault.line() == Some(line) => {
            out.number(u64::from(number));
            out.put("@");
            out.number(u64::from(line.0));
        }
        _ => out.fail(),
    }
}

/// Writes the fault of a text of so many levels.
pub fn put_fault_of_levels(out: &mut Buffer, count: usize, parts: &[u8]) {
    let text = nested(out.alloc(), count, parts);
    match text.told() {
        Some(text) => put_fault(out, text),
        None => out.fail(),
    }
}

/// Writes the faults of a text of so many levels and of one with a level more.
pub fn put_faults_at_the_limit(out: &mut Buffer, count: usize, parts: &[u8]) {
    put_fault_of_levels(out, count, parts);
    out.put(", then ");
    put_fault_of_levels(out, count.saturating_add(1), parts);
}

// A text of so many levels. Its parts, which `#` stands between, are its start, the prefix of each level, what stands in the middle, the back of each level, and its
// end.
fn nested(alloc: Global, count: usize, parts: &[u8]) -> Buffer {
    let (start, parts) = parted(parts, b'#');
    let (front, parts) = parted(parts, b'#');
    let (middle, parts) = parted(parts, b'#');
    let (back, end) = parted(parts, b'#');
    let mut text = Buffer::new(alloc);
    text.bytes(start);
    text.repeat(front, count);
    text.bytes(middle);
    text.repeat(back, count);
    text.bytes(end);
    text
}
