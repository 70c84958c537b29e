ghost use Rattle.std.specs.Prelude.{◌≡◌, ℕ, ◌+◌, ◌*◌, ◌≤◌, IfOk, IfSome, OnOk, OnErr, Some, IfErr, Err};
ghost use Rattle.ps_base.specs.declared.trap.Trap.{Trap};
ghost use Rattle.table_nodes.specs.heap_places.heap_texts.declared.fault.OpFault.TheVariants.{Trap as Traps};
ghost use Rattle.table_nodes.specs.heap_places.obj_layout.Storing.{SameNumbers};
ghost use Rattle.table_nodes.specs.heap_places.swizzle.Heap.{IsHeld, num_at};
ghost use Rattle.table_nodes.specs.heap_places.swizzle.Touch.{Keeps};
ghost use Rattle.table_nodes.specs.avl_trees.Trees.{bits as digits};
ghost use Rattle.table_nodes.specs.Bringing.{Brings};
ghost use Rattle.table_nodes.specs.Nodes.{Grows};
ghost use Rattle.table_nodes.specs.heap_places.swizzle.Text.{text_at};
ghost use Rattle.table_nodes.specs.node_rows.Keys.{by_ints, by_texts};
ghost use Rattle.table_nodes.specs.Sought.{IsKeyHeld, IsTextHeld, kind_of, key_in};
ghost use Rattle.table_nodes.specs.Spans.{IsValueOf};
ghost use Rattle.table_nodes.specs.Steps.{place};
ghost use Rattle.table_nodes.specs.declared.keys.Key.TheVariants.{Int, Text};
ghost use Rattle.table_lib.specs.Operations.{FetchesUsed, LooksUp};
ghost use Rattle.table_nodes.specs.Faults.{IsNodeFault};
ghost use Rattle.table_lib.specs.Faults.{IsOpFault};

use crate::bits::bits;
use crate::words::{counted_root, open_table};
use std::sync::ledger::Ledger;
use table_nodes::counted_steps::steps::Steps;
use table_nodes::heap_places::heap_texts::fault::OpFault;
use table_nodes::heap_places::obj_layout::vault::Vault;
use table_nodes::heap_places::swizzle::swizzle::Swizzle;
use table_nodes::keys::{Key, kind_of_key};
use table_nodes::search::lookup;

/// The value of a key in a table, none where the table hasn't the key. Nil, WrongClass and KeyKind as `open_table` has them. Each node that is
/// looked at is a step, at most two for each binary digit of the number of pairs, and two.
pub fn lookup_key<V: Vault, L: Ledger>(
    sw: &mut Swizzle,
    vault: &mut V,
    key: Key,
    table: Option<u32>,
    steps: &mut Steps<L>,
) -> Result<Option<u32>, OpFault>
    requires alive { V.alive vault.old }
    requires key { IsKeyHeld sw.old key }
    requires table { IfSome table (IsHeld sw.old) }
    ensures looked { LooksUp (kind_of key) (place sw.old (V.outside vault.old)) sw.new table (key_in sw.old key) result }
    ensures held { IfOk result (λ found. IfSome found (IsHeld sw.new)) }
    ensures value { IfOk result (λ found. IfSome found (IsValueOf sw.new key)) }
    ensures cost { (at : ℕ) → table ≡ Some at → steps.new ≤ steps.old + (2 * digits (num_at sw.old at 2) + 2) }
    ensures grows { OnOk result (Grows sw.old sw.new (V.outside vault.old) (V.outside vault.new)) }
    ensures keeps { OnOk result (Keeps sw.old sw.new) }
    ensures still { OnErr result (Grows sw.old sw.new (V.outside vault.old) (V.outside vault.new)) }
    ensures brings { (at : ℕ) → table ≡ Some at → Brings sw.old sw.new (2 * digits (num_at sw.old at 2) + 2) }
    ensures fetched { FetchesUsed (kind_of key) (place sw.old (V.outside vault.old)) sw.new table result }
    ensures fault { IfErr result (IsOpFault (IsNodeFault (V.outside vault.old) (V.outside vault.new) sw.new) sw.new table) }
    ensures numbers { SameNumbers V.used_words V.directory_at V.most_words V.access vault.old vault.new }
    ensures trapped { (trap : Trap) → result ≡ Err (Traps trap) → (sw.new ≡ sw.old) × (vault.new ≡ vault.old) }
    ensures alive { OnOk result (V.alive vault.new) }
{
    sw.sound();
    let opened = match open_table(sw, kind_of_key(key), table) {
        Ok(opened) => opened,
        Err(fault) => return Err(fault),
    };
    if !opened.used {
        return Ok(None);
    }
    let bound = 2 * bits(sw.num(opened.at, 2)) + 1;
    let root = match counted_root(sw, vault, opened.at) {
        Ok(root) => root,
        Err(fault) => return Err(OpFault::Swizzle(fault)),
    };
    match lookup(sw, vault, root, bound, key, steps) {
        Ok(found) => Ok(found),
        Err(fault) => Err(OpFault::Swizzle(fault)),
    }
}

/// The value of a string in a table, none where the table hasn't it. The string is that of a text of the area.
pub fn lookup_text<V: Vault, L: Ledger>(
    sw: &mut Swizzle,
    vault: &mut V,
    key: u32,
    table: Option<u32>,
    steps: &mut Steps<L>,
) -> Result<Option<u32>, OpFault>
    requires alive { V.alive vault.old }
    requires key { IsTextHeld sw.old key }
    requires table { IfSome table (IsHeld sw.old) }
    ensures looked { LooksUp by_texts (place sw.old (V.outside vault.old)) sw.new table (text_at sw.old key) result }
    ensures held { IfOk result (λ found. IfSome found (IsHeld sw.new)) }
    ensures value { IfOk result (λ found. IfSome found (IsValueOf sw.new (Text key))) }
    ensures cost { (at : ℕ) → table ≡ Some at → steps.new ≤ steps.old + (2 * digits (num_at sw.old at 2) + 2) }
    ensures grows { OnOk result (Grows sw.old sw.new (V.outside vault.old) (V.outside vault.new)) }
    ensures keeps { OnOk result (Keeps sw.old sw.new) }
    ensures still { OnErr result (Grows sw.old sw.new (V.outside vault.old) (V.outside vault.new)) }
    ensures brings { (at : ℕ) → table ≡ Some at → Brings sw.old sw.new (2 * digits (num_at sw.old at 2) + 2) }
    ensures fetched { FetchesUsed by_texts (place sw.old (V.outside vault.old)) sw.new table result }
    ensures fault { IfErr result (IsOpFault (IsNodeFault (V.outside vault.old) (V.outside vault.new) sw.new) sw.new table) }
    ensures numbers { SameNumbers V.used_words V.directory_at V.most_words V.access vault.old vault.new }
    ensures trapped { (trap : Trap) → result ≡ Err (Traps trap) → (sw.new ≡ sw.old) × (vault.new ≡ vault.old) }
    ensures alive { OnOk result (V.alive vault.new) }
{
    lookup_key(sw, vault, Key::Text(key), table, steps)
}

/// The value of an int in a table, none where the table hasn't it.
pub fn lookup_int<V: Vault, L: Ledger>(
    sw: &mut Swizzle,
    vault: &mut V,
    key: i32,
    table: Option<u32>,
    steps: &mut Steps<L>,
) -> Result<Option<u32>, OpFault>
    requires alive { V.alive vault.old }
    requires table { IfSome table (IsHeld sw.old) }
    ensures looked { LooksUp by_ints (place sw.old (V.outside vault.old)) sw.new table key result }
    ensures held { IfOk result (λ found. IfSome found (IsHeld sw.new)) }
    ensures value { IfOk result (λ found. IfSome found (IsValueOf sw.new (Int key))) }
    ensures cost { (at : ℕ) → table ≡ Some at → steps.new ≤ steps.old + (2 * digits (num_at sw.old at 2) + 2) }
    ensures grows { OnOk result (Grows sw.old sw.new (V.outside vault.old) (V.outside vault.new)) }
    ensures keeps { OnOk result (Keeps sw.old sw.new) }
    ensures still { OnErr result (Grows sw.old sw.new (V.outside vault.old) (V.outside vault.new)) }
    ensures brings { (at : ℕ) → table ≡ Some at → Brings sw.old sw.new (2 * digits (num_at sw.old at 2) + 2) }
    ensures fetched { FetchesUsed by_ints (place sw.old (V.outside vault.old)) sw.new table result }
    ensures fault { IfErr result (IsOpFault (IsNodeFault (V.outside vault.old) (V.outside vault.new) sw.new) sw.new table) }
    ensures numbers { SameNumbers V.used_words V.directory_at V.most_words V.access vault.old vault.new }
    ensures trapped { (trap : Trap) → result ≡ Err (Traps trap) → (sw.new ≡ sw.old) × (vault.new ≡ vault.old) }
    ensures alive { OnOk result (V.alive vault.new) }
{
    lookup_key(sw, vault, Key::Int(key), table, steps)
}
