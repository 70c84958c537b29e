//! What the calls of a row answer, each in a line.

use crate::call::{Call, Sought};
use crate::orders::{first_difference, has_long, has_many, most_words};
use crate::scene::{
    Refused, count, enter_number, enter_string, fetch, next_number, number_value, put_next_string,
    put_refused, string_value,
};
use crate::trees::height_of_table;
use memory_vault::memory::MemoryVault;
use row_words::parted;
use row_words::table_rows::Buffer;
use table_lib::table_nodes::heap_places::swizzle::swizzle::Swizzle;

/// Writes what the calls answer, until one is refused.
pub fn put_answers(out: &mut Buffer, vault: &mut MemoryVault, sw: &mut Swizzle, calls: &[u8]) {
    let mut rest = calls;
    let mut table = 1;
    let mut first = true;
    for _ in 0..u64::MAX {
        if rest.is_empty() {
            break;
        }
        let (line, after) = parted(rest, b'\n');
        rest = after;
        if !first {
            out.put("\n");
        }
        first = false;
        let Some(call) = Call::of(line) else {
            return out.fail();
        };
        if let Call::At(pid) = call {
            table = pid;
        }
        match put_answer(out, vault, sw, table, call) {
            Ok(()) => {}
            Err(refused) => return put_refused(out, refused),
        }
    }
}

fn put_answer(
    out: &mut Buffer,
    vault: &mut MemoryVault,
    sw: &mut Swizzle,
    table: u64,
    call: Call<'_>,
) -> Result<(), Refused> {
    match call {
        Call::At(pid) => match fetch(vault, sw, pid) {
            Ok(_) => {
                out.put("done");
                Ok(())
            }
            Err(refused) => Err(refused),
        },
        Call::Enter(Sought::Int(key), value) => put_done(
            out,
            enter_number(vault, sw, table, key, value),
        ),
        Call::Enter(Sought::Text(key), value) => put_done(
            out,
            enter_string(vault, sw, table, key, value),
        ),
        Call::Lookup(Sought::Int(key)) => put_value(out, number_value(vault, sw, table, key)),
        Call::Lookup(Sought::Text(key)) => put_value(out, string_value(vault, sw, table, key)),
        Call::Next(Sought::Int(key)) => put_pair(out, next_number(vault, sw, table, Some(key))),
        Call::Next(Sought::Text(key)) => put_next_string(out, vault, sw, table, Some(key)),
        Call::FirstInt => put_pair(out, next_number(vault, sw, table, None)),
        Call::FirstText => put_next_string(out, vault, sw, table, None),
        Call::Cardinality => match count(vault, sw, table) {
            Ok(count) => Ok(put_counted(out, "count ", u64::from(count))),
            Err(refused) => Err(refused),
        },
        Call::Height => put_height(out, height_of_table(vault, sw, table)),
        Call::Assigned => Ok(put_counted(out, "assigned ", sw.assigned().len() as u64)),
        Call::Orders(orders) => Ok(put_difference(out, first_difference(vault, sw, table, orders))),
        Call::Many(keys, factor) => put_had(out, has_many(vault, sw, table, keys, factor)),
        Call::Long => put_had(out, has_long(vault, sw, table)),
        Call::Fetches(keys) => match most_words(vault, sw, table, keys) {
            Ok(Some(most)) => Ok(put_counted(out, "words ", u64::from(most))),
            Ok(None) => Ok(out.put("differ")),
            Err(refused) => Err(refused),
        },
    }
}

// Whether each key had the value that was entered.
fn put_had(out: &mut Buffer, answer: Result<bool, Refused>) -> Result<(), Refused> {
    match answer {
        Ok(had) => Ok(out.put(if had { "done" } else { "differ" })),
        Err(refused) => Err(refused),
    }
}

// A word, and a number after it.
fn put_counted(out: &mut Buffer, word: &str, number: u64) {
    out.put(word);
    out.number(number);
}

fn put_done(out: &mut Buffer, answer: Result<(), Refused>) -> Result<(), Refused> {
    match answer {
        Ok(()) => {
            out.put("done");
            Ok(())
        }
        Err(refused) => Err(refused),
    }
}

fn put_value(out: &mut Buffer, answer: Result<Option<u64>, Refused>) -> Result<(), Refused> {
    match answer {
        Ok(Some(pid)) => {
            put_counted(out, "pid ", pid);
            Ok(())
        }
        Ok(None) => {
            out.put("no value");
            Ok(())
        }
        Err(refused) => Err(refused),
    }
}

fn put_pair(out: &mut Buffer, answer: Result<Option<(i32, u64)>, Refused>) -> Result<(), Refused> {
    match answer {
        Ok(Some((key, pid))) => {
            out.put("int ");
            out.int(key);
            put_counted(out, " pid ", pid);
            Ok(())
        }
        Ok(None) => {
            out.put("no key");
            Ok(())
        }
        Err(refused) => Err(refused),
    }
}

fn put_height(out: &mut Buffer, answer: Result<Option<u64>, Refused>) -> Result<(), Refused> {
    match answer {
        Ok(Some(height)) => {
            put_counted(out, "height ", height);
            Ok(())
        }
        Ok(None) => {
            out.put("wrong height");
            Ok(())
        }
        Err(refused) => Err(refused),
    }
}

fn put_difference(out: &mut Buffer, first: Option<u32>) {
    match first {
        Some(time) => put_counted(out, "differ at ", u64::from(time)),
        None => out.put("agree"),
    }
}
