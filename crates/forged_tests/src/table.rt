//! The rows of tables, and what is found of each.
ghost use Rattle.std.specs.Prelude.{◌≡◌, true, IfSome};

use crate::call::Call;
use crate::scene::{put_answer, store_of};
use memory_vault::memory::MemoryVault;
use proc_values::swizzle::swizzle::Swizzle;
use row_words::anyhow::Result;
use row_words::table_rows::{Buffer, Row, Tables};
use row_words::{area_of, words_of};
use std::alloc::Global;

/// The head of a row that names words.
const NAMES: &[u8] = b"names";

/// The words of the area where a row says nothing of them.
const WORDS: u32 = 200;

/// Compares each row of a file with what is found of it.
pub fn compare_rows(tables: &mut Tables, file: &str) -> Result<()> {
    let rows = tables.rows(file)?;
    let mut names: &[u8] = &[];
    for row in &rows {
        if row.head.as_slice() == NAMES {
            names = row.field(0);
        } else {
            let mut found = Buffer::new(tables.alloc);
            put_found(&mut found, names, row);
            tables.compare_told(file, row, &found, row.field(2))?;
        }
    }
    Ok(())
}

// What the call of a row answers.
fn put_found(out: &mut Buffer, names: &[u8], row: &Row) {
    match store(out.alloc(), names, row.field(0)) {
        Some(mut vault) => put_found_in(out, &mut vault, row),
        None => out.fail(),
    }
}

// The store of these objects.
fn store(alloc: Global, names: &[u8], objects: &[u8]) -> Option<MemoryVault>
    ensures { IfSome result (λ vault. vault.alive ≡ true) }
{
    let words = words_of(alloc, names, objects)?;
    store_of(alloc, &words)
}

// What the call answers, and in the next line how many objects are noted as assigned then, where there are any.
fn put_found_in(out: &mut Buffer, vault: &mut MemoryVault, row: &Row)
    requires { vault.old.alive ≡ true }
{
    let Some(call) = Call::of_field(row.field(1)) else {
        return out.fail();
    };
    match area(out.alloc(), row.field(3)) {
        Some(mut sw) => {
            put_answer(out, vault, &mut sw, call);
            put_assigned(out, sw.assigned().len());
        }
        None => out.fail(),
    }
}

// An area of the words that a field tells of.
fn area(alloc: Global, field: &[u8]) -> Option<Swizzle> {
    let words = area_of(field, WORDS)?;
    match Swizzle::new(alloc, words.clamp(5, 1 << 25)) {
        Ok(sw) => Some(sw),
        Err(_) => None,
    }
}

fn put_assigned(out: &mut Buffer, assigned: usize) {
    if assigned > 0 {
        out.put("\nassigned ");
        out.number(assigned as u64);
    }
}
