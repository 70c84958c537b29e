//! The calls on the table of a PID, and what they answer. The table and the value are fetched before each call.
ghost use Rattle.std.specs.Prelude.{◌≡◌, ◌<◌, true, IfOk, IfSome, OnOk, OnSome};
ghost use Rattle.table_lib.specs.heap_places.swizzle.Heap.{IsHeld};
ghost use Rattle.table_lib.specs.heap_places.swizzle.Touch.{Keeps};
ghost use Rattle.table_lib.specs.table_nodes.Sought.{IsTextHeld};

use crate::call::{Call, Sought};
use crate::ended::{put_fault, put_refusal};
use memory_vault::memory::MemoryVault;
use memory_vault::obj_layout::vault::Vault;
use row_words::table_rows::Buffer;
use std::marker::Brand;
use std::sync::ledger::{Blank, Ledger};
use table_lib::enter::{enter_int, enter_text};
use table_lib::lookup::{lookup_int, lookup_text};
use table_lib::next::{next_int, next_text};
use table_lib::table::cardinality;
use table_lib::table_nodes::counted_steps::steps::Steps;
use table_lib::table_nodes::heap_places::heap_texts::fault::OpFault;
use table_lib::table_nodes::heap_places::heap_texts::make::make_text;
use table_lib::table_nodes::heap_places::obj_layout::kind::Kind;
use table_lib::table_nodes::heap_places::swizzle::fault::SwizzleFault;
use table_lib::table_nodes::heap_places::swizzle::swizzle::Swizzle;

// One more than the greatest PID.
const PIDS: u64 = 1 << 63;

/// Why a call wasn't made or was refused: a fault of it, or what was given is no PID.
#[derive(Clone, Copy)]
pub enum Refused {
    Fault(OpFault),
    NoPid,
}

/// The object of a PID, in the area.
pub fn fetch(vault: &mut MemoryVault, sw: &mut Swizzle, pid: u64) -> Result<u32, Refused>
    ensures alive { OnOk result (vault.new.alive ≡ true) }
    ensures held { IfOk result (IsHeld sw.new) }
    ensures keeps { OnOk result (Keeps sw.old sw.new) }
{
    if pid == 0 || pid >= PIDS || !vault.is_alive() {
        return Err(Refused::NoPid);
    }
    match sw.touch_pid(vault, pid) {
        Ok(at) => Ok(at),
        Err(fault) => Err(Refused::Fault(OpFault::Swizzle(fault))),
    }
}

/// Writes why a call wasn't made or was refused.
pub fn put_refused(out: &mut Buffer, refused: Refused) {
    match refused {
        Refused::Fault(fault) => put_fault(out, fault),
        Refused::NoPid => out.put("no pid"),
    }
}

// A table, and the value of a call, both in the area.
#[derive(Clone, Copy)]
struct Operands {
    table: u32,
    value: Option<u32>,
}

fn fetch_both(
    vault: &mut MemoryVault,
    sw: &mut Swizzle,
    table: u64,
    value: Option<u64>,
) -> Result<Operands, Refused>
    ensures alive { OnOk result (vault.new.alive ≡ true) }
    ensures table { IfOk result (λ operands. IsHeld sw.new operands.table) }
    ensures value { IfOk result (λ operands. IfSome operands.value (IsHeld sw.new)) }
    ensures keeps { OnOk result (Keeps sw.old sw.new) }
{
    let Some(pid) = value else {
        return match fetch(vault, sw, table) {
            Ok(table) => Ok(Operands { table, value: None }),
            Err(refused) => Err(refused),
        };
    };
    let value = match fetch(vault, sw, pid) {
        Ok(value) => value,
        Err(refused) => return Err(refused),
    };
    match fetch(vault, sw, table) {
        Ok(table) => Ok(Operands {
            table,
            value: Some(value),
        }),
        Err(refused) => Err(refused),
    }
}

/// Enters the object of a PID under an int of the table of a PID, or takes the int out.
pub fn enter_number(
    vault: &mut MemoryVault,
    sw: &mut Swizzle,
    table: u64,
    key: i32,
    value: Option<u64>,
) -> Result<(), Refused> {
    let operands = match fetch_both(vault, sw, table, value) {
        Ok(operands) => operands,
        Err(refused) => return Err(refused),
    };
    match enter_int(sw, vault, key, Some(operands.table), operands.value) {
        Ok(()) => Ok(()),
        Err(fault) => Err(Refused::Fault(fault)),
    }
}

// The text of a key, in the area.
fn key_text(sw: &mut Swizzle, bytes: &[u8]) -> Result<u32, Refused>
    ensures { IfOk result (IsTextHeld sw.new) }
{
    match make_text(sw, bytes) {
        Ok(text) => Ok(text),
        Err(fault) => Err(Refused::Fault(OpFault::Swizzle(fault))),
    }
}

/// Enters the object of a PID under a string of the table of a PID, or takes the string out.
pub fn enter_string(
    vault: &mut MemoryVault,
    sw: &mut Swizzle,
    table: u64,
    key: &[u8],
    value: Option<u64>,
) -> Result<(), Refused> {
    let text = match key_text(sw, key) {
        Ok(text) => text,
        Err(refused) => return Err(refused),
    };
    let operands = match fetch_both(vault, sw, table, value) {
        Ok(operands) => operands,
        Err(refused) => return Err(refused),
    };
    match enter_text(sw, vault, text, Some(operands.table), operands.value) {
        Ok(()) => Ok(()),
        Err(fault) => Err(Refused::Fault(fault)),
    }
}

// The PID of an object that a call answered.
fn pid_of(sw: &Swizzle, found: Option<u32>) -> Option<u64>
    requires { IfSome found (IsHeld sw.now) }
{
    match found {
        Some(at) => Some(sw.pid(at)),
        None => None,
    }
}

// The PID of the value of an int in the table of a PID.
fn find_number<L: Ledger>(
    vault: &mut MemoryVault,
    sw: &mut Swizzle,
    table: u64,
    key: i32,
    blank: Blank,
) -> Result<Option<u64>, Refused>
    requires name { blank.name ≡ L.name }
    requires parts { blank.parts ≡ L.parts }
    requires some { 0 < L.parts }
{
    let table = match fetch(vault, sw, table) {
        Ok(table) => table,
        Err(refused) => return Err(refused),
    };
    let mut steps = Steps::<L>::new(blank);
    match lookup_int(sw, vault, key, Some(table), &mut steps) {
        Ok(found) => Ok(pid_of(sw, found)),
        Err(fault) => Err(Refused::Fault(fault)),
    }
}

// The PID of the value of a string in the table of a PID.
fn find_string<L: Ledger>(
    vault: &mut MemoryVault,
    sw: &mut Swizzle,
    table: u64,
    key: &[u8],
    blank: Blank,
) -> Result<Option<u64>, Refused>
    requires name { blank.name ≡ L.name }
    requires parts { blank.parts ≡ L.parts }
    requires some { 0 < L.parts }
{
    let text = match key_text(sw, key) {
        Ok(text) => text,
        Err(refused) => return Err(refused),
    };
    let table = match fetch(vault, sw, table) {
        Ok(table) => table,
        Err(refused) => return Err(refused),
    };
    let mut steps = Steps::<L>::new(blank);
    match lookup_text(sw, vault, text, Some(table), &mut steps) {
        Ok(found) => Ok(pid_of(sw, found)),
        Err(fault) => Err(Refused::Fault(fault)),
    }
}

/// The PID of the value of an int in the table of a PID.
pub fn number_value(
    vault: &mut MemoryVault,
    sw: &mut Swizzle,
    table: u64,
    key: i32,
) -> Result<Option<u64>, Refused> {
    find_number::<Brand>(vault, sw, table, key, Blank::new(1))
}

/// The PID of the value of a string in the table of a PID.
pub fn string_value(
    vault: &mut MemoryVault,
    sw: &mut Swizzle,
    table: u64,
    key: &[u8],
) -> Result<Option<u64>, Refused> {
    find_string::<Brand>(vault, sw, table, key, Blank::new(1))
}

/// The next int after one in the table of a PID, or the first, and the PID of its value.
pub fn next_number(
    vault: &mut MemoryVault,
    sw: &mut Swizzle,
    table: u64,
    after: Option<i32>,
) -> Result<Option<(i32, u64)>, Refused> {
    let table = match fetch(vault, sw, table) {
        Ok(table) => table,
        Err(refused) => return Err(refused),
    };
    match next_int(sw, vault, after, Some(table)) {
        Ok(Some((key, value))) => Ok(Some((key, pid_at(sw, value)))),
        Ok(None) => Ok(None),
        Err(fault) => Err(Refused::Fault(fault)),
    }
}

// The PID of an object, 0 for one that isn't in the area.
fn pid_at(sw: &Swizzle, at: u32) -> u64
    requires { IsHeld sw.now at }
{
    sw.pid(at)
}

/// Writes the next string after one in the table of a PID, or the first, and the PID of its value.
pub fn put_next_string(
    out: &mut Buffer,
    vault: &mut MemoryVault,
    sw: &mut Swizzle,
    table: u64,
    after: Option<&[u8]>,
) -> Result<(), Refused> {
    let text = match after {
        Some(bytes) => match key_text(sw, bytes) {
            Ok(text) => Some(text),
            Err(refused) => return Err(refused),
        },
        None => None,
    };
    let table = match fetch(vault, sw, table) {
        Ok(table) => table,
        Err(refused) => return Err(refused),
    };
    match next_text(sw, vault, text, Some(table)) {
        Ok(Some((key, value))) => {
            put_text_pair(out, sw, key, value);
            Ok(())
        }
        Ok(None) => {
            out.put("no key");
            Ok(())
        }
        Err(fault) => Err(Refused::Fault(fault)),
    }
}

fn put_text_pair(out: &mut Buffer, sw: &Swizzle, key: u32, value: u32)
    requires key { IsTextHeld sw.now key }
    requires value { IsHeld sw.now value }
{
    out.put("text ");
    if sw.kind(key) == Kind::Text {
        out.bytes(sw.text(key));
    }
    out.put(" pid ");
    out.number(sw.pid(value));
}

/// How many pairs the table of a PID has.
pub fn count(vault: &mut MemoryVault, sw: &mut Swizzle, table: u64) -> Result<u32, Refused> {
    let table = match fetch(vault, sw, table) {
        Ok(table) => table,
        Err(refused) => return Err(refused),
    };
    match cardinality(sw, &*vault, Some(table)) {
        Ok(count) => Ok(count),
        Err(fault) => Err(Refused::Fault(fault)),
    }
}
