//! What is found of the rows.
ghost use Rattle.heap_ops.specs.swizzle.Heap.{IsHeld};
ghost use Rattle.heap_ops.specs.heap_texts.Texts.{HoldsText};

use crate::area::{WORDS, area_with};
use crate::near::near;
use crate::told::{put_assigned, put_fault, put_value, put_vector};
use crate::vectors::{got, put, repeated, vector_of};
use heap_ops::swizzle::swizzle::Swizzle;
use row_words::table_rows::Buffer;
use row_words::{Words, parted};

/// Writes what is found of these lines: the text of a type, a vector, and a call if there is one.
pub fn put_found(out: &mut Buffer, field: &[u8]) {
    let (text, lines) = parted(field, b'\n');
    let (vector, call) = parted(lines, b'\n');
    let mut words = Words::of(vector);
    match (words.word(), call) {
        (b"repeat", b"") => put_vector_of_one_value(out, text, words),
        (b"list", _) => put_vector_of_list(out, text, words, Words::of(call)),
        _ => out.fail(),
    }
}

fn put_vector_of_one_value(out: &mut Buffer, text: &[u8], words: Words<'_>) {
    match area_with(out.alloc(), WORDS, text) {
        Some(mut area) => put_repeated(out, &mut area.sw, area.ty, words),
        None => out.fail(),
    }
}

// The vector of one value that these words tell of.
fn put_repeated(out: &mut Buffer, sw: &mut Swizzle, ty: u32, mut words: Words<'_>)
    requires { HoldsText sw.old ty }
{
    let (Some(low), Some(high)) = (words.int(), words.int()) else {
        return out.fail();
    };
    let Some(fill) = near(sw, ty, words.rest()) else {
        return out.fail();
    };
    match repeated(sw, ty, low, high, fill) {
        Ok(vector) => {
            put_vector(out, sw, vector);
            put_assigned(out, sw.assigned(), vector);
        }
        Err(fault) => put_fault(out, fault),
    }
}

// The vector of a list that these words tell of, and what the call on it answers.
fn put_vector_of_list(out: &mut Buffer, text: &[u8], mut words: Words<'_>, call: Words<'_>) {
    let Some(low) = words.int() else {
        return out.fail();
    };
    match vector_of(out.alloc(), text, low, words) {
        Some(mut made) => {
            put_called(out, &mut made.sw, made.ty, made.vector, call);
            put_assigned(out, made.sw.assigned(), made.vector);
        }
        None => out.fail(),
    }
}

// The vector as it lies, or what a call on it answers.
fn put_called(out: &mut Buffer, sw: &mut Swizzle, ty: u32, vector: u32, mut call: Words<'_>)
    requires text { HoldsText sw.old ty }
    requires held { IsHeld sw.old vector }
{
    match call.word() {
        b"" => put_vector(out, sw, vector),
        b"get" => put_got(out, sw, vector, call),
        b"set" => put_set(out, sw, ty, vector, call),
        _ => out.fail(),
    }
}

// What the element of this subscript is.
fn put_got(out: &mut Buffer, sw: &mut Swizzle, vector: u32, mut words: Words<'_>)
    requires { IsHeld sw.old vector }
{
    let Some(at) = words.int() else {
        return out.fail();
    };
    if !words.is_at_end() {
        return out.fail();
    }
    match got(sw, vector, at) {
        Ok(value) => put_value(out, value),
        Err(fault) => put_fault(out, fault),
    }
}

// The vector as it lies when the element of this subscript is written.
fn put_set(out: &mut Buffer, sw: &mut Swizzle, ty: u32, vector: u32, mut words: Words<'_>)
    requires text { HoldsText sw.old ty }
    requires held { IsHeld sw.old vector }
{
    let Some(at) = words.int() else {
        return out.fail();
    };
    let Some(to) = near(sw, ty, words.rest()) else {
        return out.fail();
    };
    match put(sw, vector, at, to) {
        Ok(()) => put_vector(out, sw, vector),
        Err(fault) => put_fault(out, fault),
    }
}
