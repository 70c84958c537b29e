//! Stores of forged objects, and the calls on what is fetched of them into an area.
ghost use Rattle.std.specs.Prelude.{◌≡◌, true, None, IfOk, IfSome, OnOk};
ghost use Rattle.proc_values.specs.swizzle.Heap.{IsHeld};
ghost use Rattle.proc_values.specs.swizzle.Text.{text_at};
ghost use Rattle.proc_values.specs.heap_texts.Texts.{HoldsText};
ghost use Rattle.heap_ops.specs.heap_places.Places.{IsNear, fit_damage};
ghost use Rattle.heap_ops.specs.Structures.{IsNamed};

use crate::call::{Call, Operation};
use crate::ended::{put_fault, put_no_field, put_refusal};
use crate::value::{put_value, value_of};
use heap_ops::heap_places::places::find_misfit;
use heap_ops::heap_places::value::Value;
use heap_ops::structures::{get_field, is_class, set_field};
use heap_ops::vectors::{get_element, high, low, set_element};
use memory_vault::memory::MemoryVault;
use memory_vault::obj_layout::kind::Kind;
use proc_values::heap_texts::fault::OpFault;
use proc_values::heap_texts::make::make_text;
use proc_values::reading::{constant, instr_at};
use proc_values::swizzle::fault::SwizzleFault;
use proc_values::swizzle::swizzle::Swizzle;
use proc_values::text_forms::forms::{Form, Located, locate};
use row_words::table_rows::Buffer;
use row_words::{index_of, int_of};
use std::alloc::Global;

// One more than the greatest PID.
const PIDS: u64 = 1 << 63;

// The most words of a store of the tests.
const MOST_WORDS: usize = 1 << 21;

/// A store with these words, if there may be such a store.
pub fn store_of(alloc: Global, words: &[u64]) -> Option<MemoryVault>
    ensures { IfSome result (λ vault. vault.alive ≡ true) }
{
    let count = words.len();
    if count == 0 || count > MOST_WORDS {
        return None;
    }
    match MemoryVault::of_words(alloc, words, 0, count as u64) {
        Ok(vault) => Some(vault),
        Err(_) => None,
    }
}

/// The object of a PID, fetched into the area; where it is no PID, there is no refusal either.
fn fetch(vault: &mut MemoryVault, sw: &mut Swizzle, pid: u64) -> Result<u32, Option<SwizzleFault>>
    requires { vault.old.alive ≡ true }
    ensures alive { OnOk result (vault.new.alive ≡ true) }
    ensures held { IfOk result (IsHeld sw.new) }
{
    if pid == 0 || pid >= PIDS {
        return Err(None);
    }
    match sw.touch_pid(vault, pid) {
        Ok(at) => Ok(at),
        Err(fault) => Err(Some(fault)),
    }
}

/// Writes what a call answers on the object of its PID, which is fetched.
pub fn put_answer(out: &mut Buffer, vault: &mut MemoryVault, sw: &mut Swizzle, call: Call<'_>)
    requires { vault.old.alive ≡ true }
{
    match fetch(vault, sw, call.pid) {
        Ok(object) => put_called(out, vault, sw, object, call),
        Err(Some(fault)) => put_refusal(out, fault),
        Err(None) => out.put("no pid"),
    }
}

fn put_called(
    out: &mut Buffer,
    vault: &mut MemoryVault,
    sw: &mut Swizzle,
    object: u32,
    call: Call<'_>,
)
    requires alive { vault.old.alive ≡ true }
    requires held { IsHeld sw.old object }
{
    match call.operation {
        Operation::Field => put_field(out, vault, sw, object, call),
        Operation::SetField => put_set_field(out, vault, sw, object, call),
        Operation::Element => put_element(out, vault, sw, object, call.words.rest()),
        Operation::SetElement => put_set_element(out, vault, sw, object, call),
        Operation::Constant => put_constant(out, vault, sw, object, call.words.rest()),
        Operation::Instr => put_next(out, sw, object, call.words.rest()),
        _ if !call.words.is_at_end() => out.fail(),
        Operation::Touch => put_fetched(out, sw, object, call.pid),
        Operation::Text => put_is(out, has_bytes(sw, object, call.text)),
        Operation::Class => put_is_of_class(out, vault, sw, object, call.text),
        Operation::Low => put_bound(out, low(sw, vault, object)),
        Operation::High => put_bound(out, high(sw, vault, object)),
    }
}

// A word, and a number after it.
fn put_counted(out: &mut Buffer, word: &str, number: u32) {
    out.put(word);
    out.number(u64::from(number));
}

fn put_is(out: &mut Buffer, is: bool) {
    out.put(if is { "is true" } else { "is false" });
}

fn put_bound(out: &mut Buffer, answer: Result<i32, SwizzleFault>) {
    match answer {
        Ok(bound) => {
            out.put("bound ");
            out.int(bound);
        }
        Err(fault) => put_refusal(out, fault),
    }
}

fn put_found(out: &mut Buffer, answer: Result<Value, OpFault>) {
    match answer {
        Ok(value) => put_value(out, value),
        Err(fault) => put_fault(out, fault),
    }
}

fn put_done(out: &mut Buffer, answer: Result<(), OpFault>) {
    match answer {
        Ok(()) => out.put("done"),
        Err(fault) => put_fault(out, fault),
    }
}

// What came, if it has the header that it is to have in the area.
fn put_fetched(out: &mut Buffer, sw: &Swizzle, object: u32, pid: u64)
    requires { IsHeld sw.now object }
{
    let header = sw.header(object);
    if (header.flags, header.pid, header.chain) == (0, pid, 0) {
        put_object(out, header.kind);
    } else {
        put_is(out, false);
    }
}

fn put_object(out: &mut Buffer, kind: Kind) {
    match format!(in out.alloc(); "object {kind:?}") {
        Ok(text) => out.put(&text),
        Err(_) => out.fail(),
    }
}

fn has_bytes(sw: &Swizzle, object: u32, bytes: &[u8]) -> bool
    requires { IsHeld sw.now object }
{
    match sw.kind(object) {
        Kind::Text => sw.text(object) == bytes,
        _ => false,
    }
}

// The text of a class in the area, where the object stays.
fn class_text(sw: &mut Swizzle, object: u32, text: &[u8]) -> Result<u32, SwizzleFault>
    requires { IsHeld sw.old object }
    ensures text { IfOk result (HoldsText sw.new) }
    ensures held { IsHeld sw.new object }
{
    make_text(sw, text)
}

fn put_is_of_class(
    out: &mut Buffer,
    vault: &mut MemoryVault,
    sw: &mut Swizzle,
    object: u32,
    text: &[u8],
)
    requires alive { vault.old.alive ≡ true }
    requires held { IsHeld sw.old object }
{
    let class = match class_text(sw, object, text) {
        Ok(class) => class,
        Err(fault) => return put_refusal(out, fault),
    };
    match is_class(sw, vault, Some(object), class) {
        Ok(is) => put_is(out, is),
        Err(fault) => put_refusal(out, fault),
    }
}

// The place that the text of a class tells of a field.
fn place_of(sw: &Swizzle, class: u32, number: u32) -> Option<Located>
    requires { HoldsText sw.now class }
    ensures { IfSome result (IsNamed (text_at sw.now class)) }
{
    locate(sw.text(class), number)
}

fn put_field(
    out: &mut Buffer,
    vault: &mut MemoryVault,
    sw: &mut Swizzle,
    object: u32,
    call: Call<'_>,
)
    requires alive { vault.old.alive ≡ true }
    requires held { IsHeld sw.old object }
{
    let Some(number) = index_of(call.words.rest()) else {
        return out.fail();
    };
    let class = match class_text(sw, object, call.text) {
        Ok(class) => class,
        Err(fault) => return put_refusal(out, fault),
    };
    match place_of(sw, class, number) {
        Some(located) => put_found(out, get_field(sw, vault, Some(object), class, located)),
        None => put_no_field(out),
    }
}

// The value, if it denotes no object and may stand in a place of this form.
fn fit(sw: &Swizzle, form: Form, to: Value) -> Option<Value>
    ensures near { IfSome result (IsNear sw.now) }
    ensures fits { IfSome result (λ value. fit_damage form value ≡ None) }
{
    match (to, find_misfit(form, to)) {
        (Value::Ref(Some(_)), _) => None,
        (_, Some(_)) => None,
        (_, None) => Some(to),
    }
}

fn put_set_field(
    out: &mut Buffer,
    vault: &mut MemoryVault,
    sw: &mut Swizzle,
    object: u32,
    mut call: Call<'_>,
)
    requires alive { vault.old.alive ≡ true }
    requires held { IsHeld sw.old object }
{
    let (Some(number), Some(to)) = (call.words.index(), value_of(call.words)) else {
        return out.fail();
    };
    let class = match class_text(sw, object, call.text) {
        Ok(class) => class,
        Err(fault) => return put_refusal(out, fault),
    };
    let Some(located) = place_of(sw, class, number) else {
        return put_no_field(out);
    };
    match fit(sw, located.place.form, to) {
        Some(to) => put_done(out, set_field(sw, vault, Some(object), class, located, to)),
        None => put_no_field(out),
    }
}

fn put_element(out: &mut Buffer, vault: &mut MemoryVault, sw: &mut Swizzle, object: u32, at: &[u8])
    requires alive { vault.old.alive ≡ true }
    requires held { IsHeld sw.old object }
{
    match int_of(at) {
        Some(at) => put_found(out, get_element(sw, vault, object, at)),
        None => out.fail(),
    }
}

fn put_set_element(
    out: &mut Buffer,
    vault: &mut MemoryVault,
    sw: &mut Swizzle,
    object: u32,
    mut call: Call<'_>,
)
    requires alive { vault.old.alive ≡ true }
    requires held { IsHeld sw.old object }
{
    match (call.words.int(), value_of(call.words)) {
        (Some(_), Some(Value::Ref(Some(_)))) => put_no_field(out),
        (Some(at), Some(to)) => put_done(out, set_element(sw, vault, object, at, to)),
        _ => out.fail(),
    }
}

fn put_constant(
    out: &mut Buffer,
    vault: &mut MemoryVault,
    sw: &mut Swizzle,
    object: u32,
    index: &[u8],
)
    requires alive { vault.old.alive ≡ true }
    requires held { IsHeld sw.old object }
{
    let Some(index) = index_of(index) else {
        return out.fail();
    };
    match constant(sw, vault, object, index) {
        Ok(at) => put_counted(out, "place ", at),
        Err(fault) => put_refusal(out, fault),
    }
}

fn put_next(out: &mut Buffer, sw: &Swizzle, object: u32, at: &[u8])
    requires { IsHeld sw.now object }
{
    let Some(at) = index_of(at) else {
        return out.fail();
    };
    match instr_at(sw, object, at) {
        Ok((_, next)) => put_counted(out, "next ", next),
        Err(fault) => put_refusal(out, fault),
    }
}
