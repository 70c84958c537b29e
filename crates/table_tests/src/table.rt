//! The rows of tables, and what is found of each.
ghost use Rattle.std.specs.Prelude.{◌≡◌, true, IfSome};

use crate::answers::put_answers;
use memory_vault::memory::MemoryVault;
use row_words::anyhow::Result;
use row_words::table_rows::{Buffer, Row, Tables};
use row_words::{area_of, words_of};
use std::alloc::Global;
use table_lib::table_nodes::heap_places::swizzle::swizzle::Swizzle;

/// The head of a row that names words.
const NAMES: &[u8] = b"names";

/// The words of the area where a row says nothing of them.
const WORDS: u32 = 200;

// The most words of a store of the tests.
const MOST_WORDS: usize = 1 << 21;

/// Compares each row of a file with what is found of it.
pub fn compare_rows(tables: &mut Tables, file: &str) -> Result<()> {
    let rows = tables.rows(file)?;
    let mut names: &[u8] = &[];
    for row in &rows {
        if row.head.as_slice() == NAMES {
            names = row.field(0);
        } else {
            let mut found = Buffer::new(tables.alloc);
            put_found(&mut found, names, row);
            tables.compare_told(file, row, &found, row.field(2))?;
        }
    }
    Ok(())
}

// What the calls of a row answer.
fn put_found(out: &mut Buffer, names: &[u8], row: &Row) {
    match (
        store(out.alloc(), names, row.field(0)),
        area(out.alloc(), row.field(3)),
    ) {
        (Some(mut vault), Some(mut sw)) => put_answers(out, &mut vault, &mut sw, row.field(1)),
        _ => out.fail(),
    }
}

// The store of these objects.
fn store(alloc: Global, names: &[u8], objects: &[u8]) -> Option<MemoryVault>
    ensures { IfSome result (λ vault. vault.alive ≡ true) }
{
    let words = words_of(alloc, names, objects)?;
    store_of(alloc, &words)
}

// A store with these words, if there may be such a store.
fn store_of(alloc: Global, words: &[u64]) -> Option<MemoryVault>
    ensures { IfSome result (λ vault. vault.alive ≡ true) }
{
    let count = words.len();
    if count == 0 || count > MOST_WORDS {
        return None;
    }
    match MemoryVault::of_words(alloc, words, 0, count as u64) {
        Ok(vault) => Some(vault),
        Err(_) => None,
    }
}

// An area of the words that a field tells of.
fn area(alloc: Global, field: &[u8]) -> Option<Swizzle> {
    let words = area_of(field, WORDS)?;
    match Swizzle::new(alloc, words.clamp(5, 1 << 25)) {
        Ok(sw) => Some(sw),
        Err(_) => None,
    }
}
