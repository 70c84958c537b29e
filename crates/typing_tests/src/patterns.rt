//! Texts that repeat their pieces.

use row_words::parted;
use row_words::table_rows::{Buffer, Row};
use std::alloc::Global;

/// The most pieces of a pattern.
const MOST_PIECES: usize = 8;

/// The text of a pattern: what stands between the first `$` and the second stands there so many times as the first word of the row's head
/// says, what stands between the next two as the second word says, and so on. In place of a `#` each piece has its own number, from 1 on.
pub fn text_of(alloc: Global, row: &Row) -> Buffer {
    let mut out = Buffer::new(alloc);
    let mut rest = row.field(0);
    for place in 0..MOST_PIECES {
        let (plain, behind) = parted(rest, b'$');
        let (piece, behind) = parted(behind, b'$');
        out.bytes(plain);
        put_pieces(&mut out, piece, row.number(place));
        rest = behind;
    }
    if !rest.is_empty() {
        out.fail();
    }
    out
}

/// So many pieces, each with its number.
pub fn put_pieces(out: &mut Buffer, piece: &[u8], count: usize) {
    for number in 1..=count {
        put_piece(out, piece, number as u64);
    }
}

fn put_piece(out: &mut Buffer, piece: &[u8], number: u64) {
    for byte in piece {
        match *byte {
            b'#' => out.number(number),
            byte => out.bytes(&[byte]),
        }
    }
}
