ghost use Rattle.std.specs.Prelude.{◌≡◌, ◌+◌, ◌*◌, ◌-◌, ◌^◌, ◌<◌, true, false, ℕ, None, Some, IfSome, MatchResult, OnOk, OnErr, IfErr, Err};
ghost use Rattle.ps_base.specs.declared.trap.Trap.{Trap};
ghost use Rattle.table_nodes.specs.heap_places.heap_texts.declared.fault.OpFault.TheVariants.{Trap as Traps};
ghost use Rattle.table_nodes.specs.heap_places.obj_layout.Storing.{SameNumbers};
ghost use Rattle.table_nodes.specs.heap_places.swizzle.Heap.{IsHeld, num_at};
ghost use Rattle.table_nodes.specs.Nodes.{Grows};
ghost use Rattle.table_nodes.specs.heap_places.swizzle.Reading.{LeavesOutside};
ghost use Rattle.table_nodes.specs.avl_trees.Trees.{bits as digits};
ghost use Rattle.table_nodes.specs.Bringing.{Brings};
ghost use Rattle.table_nodes.specs.heap_places.swizzle.Joint.{name_at};
ghost use Rattle.table_nodes.specs.heap_places.swizzle.Text.{text_at};
ghost use Rattle.table_nodes.specs.node_rows.Keys.{by_ints, by_texts};
ghost use Rattle.table_nodes.specs.Sought.{IsKeyHeld, IsTextHeld, kind_of, key_in};
ghost use Rattle.table_nodes.specs.Steps.{place};
ghost use Rattle.table_lib.specs.Entries.{Enters, MarksTable, PutsPair, TakesPair, SparesBut};
ghost use Rattle.table_lib.specs.Tables.{IsTableAt};
ghost use Rattle.table_nodes.specs.Faults.{IsChangeFault, IsNodeFault};
ghost use Rattle.table_lib.specs.Faults.{IsFaultAt, IsOpFault};

use crate::bits::bits;
use crate::words::{Opened, counted_root, mark_table, open_table, write_table};
use table_nodes::enter::enter;
use table_nodes::heap_places::heap_texts::fault::OpFault;
use table_nodes::heap_places::obj_layout::vault::Vault;
use table_nodes::heap_places::swizzle::fault::SwizzleFault;
use table_nodes::heap_places::swizzle::swizzle::Swizzle;
use table_nodes::keys::{Key, kind_of_key};
use table_nodes::remove::remove;
use table_nodes::span::Span;

// How many pairs there are with one that is new or isn't.
fn count_with(count: u64, made: bool) -> u64
    ensures more { made ≡ true → count < 2 ^ 64 - 1 → result ≡ count + 1 }
    ensures same { made ≡ false → result ≡ count }
{
    if made { count.saturating_add(1) } else { count }
}

// How many pairs there are without one that was there or wasn't.
fn count_without(count: u64, gone: bool) -> u64
    ensures fewer { gone ≡ true → result ≡ count - 1 }
    ensures same { gone ≡ false → result ≡ count }
{
    if gone { count.saturating_sub(1) } else { count }
}

// Puts a value under a key of a table.
fn put_pair<V: Vault>(
    sw: &mut Swizzle,
    vault: &mut V,
    at: u32,
    key: Key,
    value: u32,
) -> Result<(), SwizzleFault>
    requires alive { V.alive vault.old }
    requires table { IsTableAt sw.old at }
    requires key { IsKeyHeld sw.old key }
    requires value { IsHeld sw.old value }
    ensures put { PutsPair (kind_of key) (place sw.old (V.outside vault.old)) (place sw.new (V.outside vault.new)) at (key_in sw.old key) (name_at sw.old value) result }
    ensures spares { OnOk result (SparesBut at sw.old sw.new (V.outside vault.old) (V.outside vault.new)) }
    ensures leaves { OnOk result (LeavesOutside (V.outside vault.old) (V.outside vault.new)) }
    ensures still { OnErr result (Grows sw.old sw.new (V.outside vault.old) (V.outside vault.new)) }
    ensures brings { Brings sw.old sw.new (3 * (2 * digits (num_at sw.old at 2) + 2)) }
    ensures fault { IfErr result (IsFaultAt (IsChangeFault (V.outside vault.old) (V.outside vault.new) sw.new) sw.new at) }
    ensures numbers { SameNumbers V.used_words V.directory_at V.most_words V.access vault.old vault.new }
    ensures alive { OnOk result (V.alive vault.new) }
{
    sw.sound();
    let count = sw.num(at, 2);
    let bound = 2 * bits(count) + 1;
    let root = match counted_root(sw, vault, at) {
        Ok(root) => root,
        Err(fault) => return Err(fault),
    };
    let span = Span {
        low: None,
        high: None,
    };
    let entered = match enter(sw, vault, root, bound, key, span, value) {
        Ok(entered) => entered,
        Err(fault) => return Err(fault),
    };
    let count = count_with(count, entered.made);
    write_table(sw, &*vault, at, Some(entered.root), kind_of_key(key), count);
    Ok(())
}

// Takes a key out of a table that has keys of its kind.
fn take_key<V: Vault>(
    sw: &mut Swizzle,
    vault: &mut V,
    at: u32,
    key: Key,
) -> Result<(), SwizzleFault>
    requires alive { V.alive vault.old }
    requires table { IsTableAt sw.old at }
    requires key { IsKeyHeld sw.old key }
    ensures taken { TakesPair (kind_of key) (place sw.old (V.outside vault.old)) (place sw.new (V.outside vault.new)) at (key_in sw.old key) result }
    ensures spares { OnOk result (SparesBut at sw.old sw.new (V.outside vault.old) (V.outside vault.new)) }
    ensures leaves { OnOk result (LeavesOutside (V.outside vault.old) (V.outside vault.new)) }
    ensures still { OnErr result (Grows sw.old sw.new (V.outside vault.old) (V.outside vault.new)) }
    ensures brings { Brings sw.old sw.new (3 * (2 * digits (num_at sw.old at 2) + 2)) }
    ensures fault { IfErr result (IsFaultAt (IsNodeFault (V.outside vault.old) (V.outside vault.new) sw.new) sw.new at) }
    ensures numbers { SameNumbers V.used_words V.directory_at V.most_words V.access vault.old vault.new }
    ensures alive { OnOk result (V.alive vault.new) }
{
    sw.sound();
    let count = sw.num(at, 2);
    let bound = 2 * bits(count) + 1;
    let root = match counted_root(sw, vault, at) {
        Ok(root) => root,
        Err(fault) => return Err(fault),
    };
    let span = Span {
        low: None,
        high: None,
    };
    let removed = match remove(sw, vault, root, bound, key, span) {
        Ok(removed) => removed,
        Err(fault) => return Err(fault),
    };
    let count = count_without(count, removed.gone);
    write_table(sw, &*vault, at, removed.root, kind_of_key(key), count);
    Ok(())
}

// The call on a table that was opened.
fn enter_opened<V: Vault>(
    sw: &mut Swizzle,
    vault: &mut V,
    opened: Opened,
    key: Key,
    to: Option<u32>,
) -> Result<(), SwizzleFault>
    requires alive { V.alive vault.old }
    requires table { IsTableAt sw.old opened.at }
    requires key { IsKeyHeld sw.old key }
    requires to { IfSome to (IsHeld sw.old) }
    ensures put { (value : ℕ) → to ≡ Some value → PutsPair (kind_of key) (place sw.old (V.outside vault.old)) (place sw.new (V.outside vault.new)) opened.at (key_in sw.old key) (name_at sw.old value) result }
    ensures taken { to ≡ None → opened.used ≡ true → TakesPair (kind_of key) (place sw.old (V.outside vault.old)) (place sw.new (V.outside vault.new)) opened.at (key_in sw.old key) result }
    ensures marked { to ≡ None → opened.used ≡ false → MatchResult result (λ done. MarksTable sw.old sw.new (V.outside vault.old) (V.outside vault.new) opened.at) (λ fault. ⊥) }
    ensures spares { OnOk result (SparesBut opened.at sw.old sw.new (V.outside vault.old) (V.outside vault.new)) }
    ensures leaves { OnOk result (LeavesOutside (V.outside vault.old) (V.outside vault.new)) }
    ensures still { OnErr result (Grows sw.old sw.new (V.outside vault.old) (V.outside vault.new)) }
    ensures brings { Brings sw.old sw.new (3 * (2 * digits (num_at sw.old opened.at 2) + 2)) }
    ensures fault { IfErr result (IsFaultAt (IsChangeFault (V.outside vault.old) (V.outside vault.new) sw.new) sw.new opened.at) }
    ensures numbers { SameNumbers V.used_words V.directory_at V.most_words V.access vault.old vault.new }
    ensures alive { OnOk result (V.alive vault.new) }
{
    match to {
        Some(value) => put_pair(sw, vault, opened.at, key, value),
        None => {
            if opened.used {
                take_key(sw, vault, opened.at, key)
            } else {
                mark_table(sw, &*vault, opened.at);
                Ok(())
            }
        }
    }
}

/// Enters an object under a key of a table, or takes the key out where there is none to enter. Nil, WrongClass and KeyKind as `open_table` has
/// them. The table is noted as assigned in any case.
pub fn enter_key<V: Vault>(
    sw: &mut Swizzle,
    vault: &mut V,
    key: Key,
    table: Option<u32>,
    to: Option<u32>,
) -> Result<(), OpFault>
    requires alive { V.alive vault.old }
    requires key { IsKeyHeld sw.old key }
    requires table { IfSome table (IsHeld sw.old) }
    requires to { IfSome to (IsHeld sw.old) }
    ensures entered { Enters (kind_of key) (place sw.old (V.outside vault.old)) (place sw.new (V.outside vault.new)) table (key_in sw.old key) to result }
    ensures spares { (at : ℕ) → table ≡ Some at → OnOk result (SparesBut at sw.old sw.new (V.outside vault.old) (V.outside vault.new)) }
    ensures leaves { OnOk result (LeavesOutside (V.outside vault.old) (V.outside vault.new)) }
    ensures still { OnErr result (Grows sw.old sw.new (V.outside vault.old) (V.outside vault.new)) }
    ensures brings { (at : ℕ) → table ≡ Some at → Brings sw.old sw.new (3 * (2 * digits (num_at sw.old at 2) + 2)) }
    ensures fault { IfErr result (IsOpFault (IsChangeFault (V.outside vault.old) (V.outside vault.new) sw.new) sw.new table) }
    ensures numbers { SameNumbers V.used_words V.directory_at V.most_words V.access vault.old vault.new }
    ensures trapped { (trap : Trap) → result ≡ Err (Traps trap) → (sw.new ≡ sw.old) × (vault.new ≡ vault.old) }
    ensures alive { OnOk result (V.alive vault.new) }
{
    sw.sound();
    let opened = match open_table(sw, kind_of_key(key), table) {
        Ok(opened) => opened,
        Err(fault) => return Err(fault),
    };
    match enter_opened(sw, vault, opened, key, to) {
        Ok(()) => Ok(()),
        Err(fault) => Err(OpFault::Swizzle(fault)),
    }
}

/// Enters an object under a string of a table, or takes the string out where there is none to enter. The string is that of a text of the area.
pub fn enter_text<V: Vault>(
    sw: &mut Swizzle,
    vault: &mut V,
    key: u32,
    table: Option<u32>,
    to: Option<u32>,
) -> Result<(), OpFault>
    requires alive { V.alive vault.old }
    requires key { IsTextHeld sw.old key }
    requires table { IfSome table (IsHeld sw.old) }
    requires to { IfSome to (IsHeld sw.old) }
    ensures entered { Enters by_texts (place sw.old (V.outside vault.old)) (place sw.new (V.outside vault.new)) table (text_at sw.old key) to result }
    ensures spares { (at : ℕ) → table ≡ Some at → OnOk result (SparesBut at sw.old sw.new (V.outside vault.old) (V.outside vault.new)) }
    ensures leaves { OnOk result (LeavesOutside (V.outside vault.old) (V.outside vault.new)) }
    ensures still { OnErr result (Grows sw.old sw.new (V.outside vault.old) (V.outside vault.new)) }
    ensures brings { (at : ℕ) → table ≡ Some at → Brings sw.old sw.new (3 * (2 * digits (num_at sw.old at 2) + 2)) }
    ensures fault { IfErr result (IsOpFault (IsChangeFault (V.outside vault.old) (V.outside vault.new) sw.new) sw.new table) }
    ensures numbers { SameNumbers V.used_words V.directory_at V.most_words V.access vault.old vault.new }
    ensures trapped { (trap : Trap) → result ≡ Err (Traps trap) → (sw.new ≡ sw.old) × (vault.new ≡ vault.old) }
    ensures alive { OnOk result (V.alive vault.new) }
{
    enter_key(sw, vault, Key::Text(key), table, to)
}

/// Enters an object under an int of a table, or takes the int out where there is none to enter.
pub fn enter_int<V: Vault>(
    sw: &mut Swizzle,
    vault: &mut V,
    key: i32,
    table: Option<u32>,
    to: Option<u32>,
) -> Result<(), OpFault>
    requires alive { V.alive vault.old }
    requires table { IfSome table (IsHeld sw.old) }
    requires to { IfSome to (IsHeld sw.old) }
    ensures entered { Enters by_ints (place sw.old (V.outside vault.old)) (place sw.new (V.outside vault.new)) table key to result }
    ensures spares { (at : ℕ) → table ≡ Some at → OnOk result (SparesBut at sw.old sw.new (V.outside vault.old) (V.outside vault.new)) }
    ensures leaves { OnOk result (LeavesOutside (V.outside vault.old) (V.outside vault.new)) }
    ensures still { OnErr result (Grows sw.old sw.new (V.outside vault.old) (V.outside vault.new)) }
    ensures brings { (at : ℕ) → table ≡ Some at → Brings sw.old sw.new (3 * (2 * digits (num_at sw.old at 2) + 2)) }
    ensures fault { IfErr result (IsOpFault (IsChangeFault (V.outside vault.old) (V.outside vault.new) sw.new) sw.new table) }
    ensures numbers { SameNumbers V.used_words V.directory_at V.most_words V.access vault.old vault.new }
    ensures trapped { (trap : Trap) → result ≡ Err (Traps trap) → (sw.new ≡ sw.old) × (vault.new ≡ vault.old) }
    ensures alive { OnOk result (V.alive vault.new) }
{
    enter_key(sw, vault, Key::Int(key), table, to)
}
