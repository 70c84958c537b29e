//! The rows of tables, and what is found of each.
ghost use Rattle.std.specs.Prelude.{IfSome};

use crate::call::Call;
use crate::scene::put_called;
use db_dir::joint_ops::swizzle::swizzle::Swizzle;
use memory_vault::memory::MemoryVault;
use row_words::anyhow::Result;
use row_words::table_rows::{Buffer, Row, Tables};
use row_words::{Words, area_of, parted, words_of};
use std::alloc::Global;

/// The head of a row that names words.
const NAMES: &[u8] = b"names";

/// The words of the area where a row says nothing of them.
const WORDS: u32 = 400;

// The most words of a store of the tests.
const MOST_WORDS: usize = 1 << 21;

/// Compares each row of a file with what is found of it.
pub fn compare_rows(tables: &mut Tables, file: &str) -> Result<()> {
    let rows = tables.rows(file)?;
    let mut names: &[u8] = &[];
    for row in &rows {
        if row.head.as_slice() == NAMES {
            names = row.field(0);
        } else {
            let mut found = Buffer::new(tables.alloc);
            put_found(&mut found, names, row);
            tables.compare_told(file, row, &found, row.field(2))?;
        }
    }
    Ok(())
}

// What the calls of a row answer.
fn put_found(out: &mut Buffer, names: &[u8], row: &Row) {
    let (first, calls) = parted(row.field(1), b'\n');
    match (
        store(out.alloc(), names, row.field(0), first),
        area(out.alloc(), row.field(3)),
    ) {
        (Some(mut vault), Some(mut sw)) => put_answers(out, &mut vault, &mut sw, calls),
        _ => out.fail(),
    }
}

// What these calls answer, each in a line.
fn put_answers(out: &mut Buffer, vault: &mut MemoryVault, sw: &mut Swizzle, calls: &[u8]) {
    let mut rest = calls;
    let mut at = None;
    for number in 0..u64::MAX {
        if rest.is_empty() {
            break;
        }
        let (line, after) = parted(rest, b'\n');
        rest = after;
        if number > 0 {
            out.put("\n");
        }
        let Some(call) = Call::of(line) else {
            return out.fail();
        };
        at = put_called(out, vault, sw, at, call);
    }
}

// The PID that the first line of the calls tells of.
fn directory_of(line: &[u8]) -> Option<u64> {
    let mut words = Words::of(line);
    if words.word() != b"at".as_slice() {
        return None;
    }
    words.number()
}

// The store of these objects, with the directory that a line tells of.
fn store(alloc: Global, names: &[u8], objects: &[u8], line: &[u8]) -> Option<MemoryVault> {
    let words = words_of(alloc, names, objects)?;
    let directory = directory_of(line)?;
    let count = words.len();
    if count > MOST_WORDS || directory >= count as u64 {
        return None;
    }
    match MemoryVault::of_words(alloc, &words, directory, count as u64) {
        Ok(vault) => Some(vault),
        Err(_) => None,
    }
}

// An area of the words that a field tells of.
fn area(alloc: Global, field: &[u8]) -> Option<Swizzle> {
    let words = area_of(field, WORDS)?;
    match Swizzle::new(alloc, words.clamp(5, 1 << 25)) {
        Ok(sw) => Some(sw),
        Err(_) => None,
    }
}
