//! Scopes that a store gives: what they keep, and the way out of them.
ghost use Rattle.std.specs.Prelude.{◌≡◌, true, IfSome};

use crate::ended::put_ended;
use crate::scene::{keep, kept, out_of, parent, store_of};
use crate::seen::put_assigned;
use crate::value::{put_value, value_of};
use memory_vault::memory::MemoryVault;
use row_words::anyhow::Result;
use row_words::table_rows::{Buffer, Row, Tables};
use row_words::{Words, area_of, index_of, words_of};
use scopes::heap_ops::layouts::Layouts;
use scopes::heap_places::value::Value;
use scopes::swizzle::swizzle::Swizzle;
use std::alloc::Global;

/// The head of a row that names words.
const NAMES: &[u8] = b"names";

/// The words of the area where a row says nothing of them.
const WORDS: u32 = 40;

/// Compares each row of a file with what its call gives.
pub fn compare(tables: &mut Tables, file: &str) -> Result<()> {
    let rows = tables.rows(file)?;
    let mut names: &[u8] = &[];
    for row in &rows {
        if row.head.as_slice() == NAMES {
            names = row.field(0);
        } else {
            let mut found = Buffer::new(tables.alloc);
            put_found(&mut found, names, row);
            tables.compare_told(file, row, &found, row.field(2))?;
        }
    }
    Ok(())
}

// What the call of a row answers.
fn put_found(out: &mut Buffer, names: &[u8], row: &Row) {
    match store(out.alloc(), names, row.field(0)) {
        Some(mut vault) => put_found_in(out, &mut vault, row),
        None => out.fail(),
    }
}

// The store of these objects.
fn store(alloc: Global, names: &[u8], objects: &[u8]) -> Option<MemoryVault>
    ensures { IfSome result (λ vault. vault.alive ≡ true) }
{
    let words = words_of(alloc, names, objects)?;
    store_of(alloc, &words)
}

// What the call answers, and in the next line which objects are noted as assigned then, where there are any.
fn put_found_in(out: &mut Buffer, vault: &mut MemoryVault, row: &Row)
    requires { vault.old.alive ≡ true }
{
    match area(out.alloc(), row.field(3)) {
        Some(mut sw) => {
            put_answer(out, vault, &mut sw, row.field(1));
            put_assigned(out, &sw);
        }
        None => out.fail(),
    }
}

// An area of the words that a field tells of.
fn area(alloc: Global, field: &[u8]) -> Option<Swizzle> {
    let words = area_of(field, WORDS)?;
    match Swizzle::new(alloc, words.clamp(5, 1 << 25)) {
        Ok(sw) => Some(sw),
        Err(_) => None,
    }
}

fn put_answer(out: &mut Buffer, vault: &mut MemoryVault, sw: &mut Swizzle, call: &[u8])
    requires { vault.old.alive ≡ true }
{
    let mut words = Words::of(call);
    let name = words.word();
    match (name, words.number()) {
        (b"kept", Some(pid)) => put_kept(out, vault, sw, pid, words.rest()),
        (b"set_kept", Some(pid)) => put_set_kept(out, vault, sw, pid, words),
        (b"out", Some(pid)) => put_out(out, vault, sw, pid, words.rest()),
        (b"parent", Some(pid)) if words.is_at_end() => put_parent(out, vault, sw, pid),
        _ => out.fail(),
    }
}

fn put_kept(out: &mut Buffer, vault: &mut MemoryVault, sw: &mut Swizzle, pid: u64, name: &[u8])
    requires { vault.old.alive ≡ true }
{
    let (Some(name), Ok(mut layouts)) = (index_of(name), Layouts::new(out.alloc())) else {
        return out.fail();
    };
    match kept(vault, sw, &mut layouts, pid, name) {
        Ok(value) => put_value(out, value),
        Err(ended) => put_ended(out, ended),
    }
}

fn put_set_kept(
    out: &mut Buffer,
    vault: &mut MemoryVault,
    sw: &mut Swizzle,
    pid: u64,
    mut words: Words<'_>,
)
    requires { vault.old.alive ≡ true }
{
    let (Some(name), Some(to)) = (words.index(), value_of(words)) else {
        return out.fail();
    };
    let Ok(mut layouts) = Layouts::new(out.alloc()) else {
        return out.fail();
    };
    match keep(vault, sw, &mut layouts, pid, name, to) {
        Ok(()) => out.put("done"),
        Err(ended) => put_ended(out, ended),
    }
}

fn put_out(out: &mut Buffer, vault: &mut MemoryVault, sw: &mut Swizzle, pid: u64, up: &[u8])
    requires { vault.old.alive ≡ true }
{
    let Some(up) = index_of(up) else {
        return out.fail();
    };
    match out_of(vault, sw, pid, up) {
        Ok(at) => {
            out.put("place ");
            out.number(u64::from(at));
        }
        Err(ended) => put_ended(out, ended),
    }
}

fn put_parent(out: &mut Buffer, vault: &mut MemoryVault, sw: &mut Swizzle, pid: u64)
    requires { vault.old.alive ≡ true }
{
    match parent(vault, sw, pid) {
        Ok(parent) => put_value(out, Value::Ref(parent)),
        Err(ended) => put_ended(out, ended),
    }
}
