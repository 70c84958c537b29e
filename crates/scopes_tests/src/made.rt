//! Scopes as they lie in the area.
ghost use Rattle.scopes.specs.heap_texts.Texts.{HoldsText};

use crate::ended::put_ended;
use crate::seen::put_seen;
use crate::world::{area_with, scoped};
use row_words::anyhow::Result;
use row_words::area_of;
use row_words::table_rows::{Buffer, Row, Tables};
use scopes::swizzle::swizzle::Swizzle;

/// The words of the area where a row says nothing of them.
const WORDS: u32 = 60;

/// Compares each row of a file with the scope that it makes.
pub fn compare(tables: &mut Tables, file: &str) -> Result<()> {
    for row in &tables.rows(file)? {
        let mut found = Buffer::new(tables.alloc);
        put_made(&mut found, row);
        tables.compare_told(file, row, &found, row.field(2))?;
    }
    Ok(())
}

fn put_made(out: &mut Buffer, row: &Row) {
    let Some(words) = area_of(row.field(3), WORDS) else {
        return out.fail();
    };
    match area_with(out.alloc(), words.clamp(5, 1 << 25), row.field(0)) {
        Some(mut area) => put_made_in(out, &mut area.sw, area.text, row.field(1)),
        None => out.fail(),
    }
}

fn put_made_in(out: &mut Buffer, sw: &mut Swizzle, text: u32, what: &[u8])
    requires { HoldsText sw.old text }
{
    match what {
        b"outermost" => put_outermost(out, sw, text),
        b"inner" => put_inner(out, sw, text),
        _ => out.fail(),
    }
}

// A scope of this text without a parent.
fn put_outermost(out: &mut Buffer, sw: &mut Swizzle, text: u32)
    requires { HoldsText sw.old text }
{
    match scoped(sw, text, None) {
        Ok(scope) => put_seen(out, sw, scope),
        Err(ended) => put_ended(out, ended),
    }
}

// A scope of this text under one without a parent.
fn put_inner(out: &mut Buffer, sw: &mut Swizzle, text: u32)
    requires { HoldsText sw.old text }
{
    let outer = match scoped(sw, text, None) {
        Ok(scope) => scope,
        Err(ended) => return put_ended(out, ended),
    };
    match scoped(sw, text, Some(outer)) {
        Ok(scope) => put_seen(out, sw, scope),
        Err(ended) => put_ended(out, ended),
    }
}
