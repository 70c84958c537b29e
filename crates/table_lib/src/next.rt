ghost use Rattle.std.specs.Prelude.{◌≡◌, ◌+◌, ◌*◌, ℕ, true, IfOk, IfSome, OnOk, OnErr, Some, IfErr, Err};
ghost use Rattle.std.specs.declared.cmp.Ordering.TheVariants.{Less};
ghost use Rattle.ps_base.specs.declared.trap.Trap.{Trap};
ghost use Rattle.table_nodes.specs.heap_places.heap_texts.declared.fault.OpFault.TheVariants.{Trap as Traps};
ghost use Rattle.table_nodes.specs.heap_places.obj_layout.Storing.{SameNumbers};
ghost use Rattle.table_nodes.specs.avl_trees.Standing.{seek};
ghost use Rattle.table_nodes.specs.heap_places.ps_heap.Operators.{is_int};
ghost use Rattle.table_nodes.specs.heap_places.swizzle.Heap.{IsHeld, num_at};
ghost use Rattle.table_nodes.specs.avl_trees.Trees.{bits as digits};
ghost use Rattle.table_nodes.specs.Bringing.{Brings};
ghost use Rattle.table_nodes.specs.heap_places.swizzle.Touch.{Keeps};
ghost use Rattle.table_nodes.specs.node_rows.Keys.{by_ints, by_texts, order_by};
ghost use Rattle.table_nodes.specs.Nodes.{IsNode, Grows};
ghost use Rattle.table_nodes.specs.Sought.{IsKeyHeld, IsTextHeld, kind_of, key_in, keys_of};
ghost use Rattle.table_nodes.specs.Steps.{place};
ghost use Rattle.table_lib.specs.Operations.{FetchesUsed};
ghost use Rattle.table_lib.specs.Nexts.{FetchesPair, FindsNode, FindsPair, IsIntPair, IsTextPair, ReadsPair, after_key, string_of};
ghost use Rattle.table_nodes.specs.Faults.{IsNodeFault};
ghost use Rattle.table_lib.specs.Faults.{IsOpFault};

use crate::bits::bits;
use crate::words::{counted_root, open_table};
use table_nodes::follow::{first, next};
use table_nodes::heap_places::heap_texts::fault::OpFault;
use table_nodes::heap_places::obj_layout::vault::Vault;
use table_nodes::heap_places::swizzle::fault::SwizzleFault;
use table_nodes::heap_places::swizzle::swizzle::Swizzle;
use table_nodes::keys::{Key, KeyKind, int_key, kind_of_key, text_key};
use table_nodes::nodes::value;

// The node of the least key above a key of a table.
fn node_above<V: Vault>(
    sw: &mut Swizzle,
    vault: &mut V,
    key: Key,
    table: Option<u32>,
) -> Result<Option<u32>, OpFault>
    requires alive { V.alive vault.old }
    requires key { IsKeyHeld sw.old key }
    requires table { IfSome table (IsHeld sw.old) }
    ensures found { FindsNode (kind_of key) (place sw.old (V.outside vault.old)) (place sw.new (V.outside vault.new)) table (seek (order_by (kind_of key)) (key_in sw.old key)) result }
    ensures node { IfOk result (λ found. IfSome found (IsNode sw.new)) }
    ensures grows { OnOk result (Grows sw.old sw.new (V.outside vault.old) (V.outside vault.new)) }
    ensures keeps { OnOk result (Keeps sw.old sw.new) }
    ensures still { OnErr result (Grows sw.old sw.new (V.outside vault.old) (V.outside vault.new)) }
    ensures brings { (at : ℕ) → table ≡ Some at → Brings sw.old sw.new (2 * digits (num_at sw.old at 2) + 1) }
    ensures fetched { FetchesUsed (kind_of key) (place sw.old (V.outside vault.old)) sw.new table result }
    ensures fault { IfErr result (IsOpFault (IsNodeFault (V.outside vault.old) (V.outside vault.new) sw.new) sw.new table) }
    ensures numbers { SameNumbers V.used_words V.directory_at V.most_words V.access vault.old vault.new }
    ensures trapped { (trap : Trap) → result ≡ Err (Traps trap) → (sw.new ≡ sw.old) × (vault.new ≡ vault.old) }
    ensures alive { OnOk result (V.alive vault.new) }
{
    sw.sound();
    let opened = match open_table(sw, kind_of_key(key), table) {
        Ok(opened) => opened,
        Err(fault) => return Err(fault),
    };
    if !opened.used {
        return Ok(None);
    }
    let bound = 2 * bits(sw.num(opened.at, 2)) + 1;
    let root = match counted_root(sw, vault, opened.at) {
        Ok(root) => root,
        Err(fault) => return Err(OpFault::Swizzle(fault)),
    };
    match next(sw, vault, root, bound, key) {
        Ok(found) => Ok(found),
        Err(fault) => Err(OpFault::Swizzle(fault)),
    }
}

// The node of the least key of a table.
fn least_node<V: Vault>(
    sw: &mut Swizzle,
    vault: &mut V,
    keys: KeyKind,
    table: Option<u32>,
) -> Result<Option<u32>, OpFault>
    requires alive { V.alive vault.old }
    requires table { IfSome table (IsHeld sw.old) }
    ensures found { FindsNode (keys_of keys) (place sw.old (V.outside vault.old)) (place sw.new (V.outside vault.new)) table (λ a. Less) result }
    ensures node { IfOk result (λ found. IfSome found (IsNode sw.new)) }
    ensures grows { OnOk result (Grows sw.old sw.new (V.outside vault.old) (V.outside vault.new)) }
    ensures keeps { OnOk result (Keeps sw.old sw.new) }
    ensures still { OnErr result (Grows sw.old sw.new (V.outside vault.old) (V.outside vault.new)) }
    ensures brings { (at : ℕ) → table ≡ Some at → Brings sw.old sw.new (2 * digits (num_at sw.old at 2) + 1) }
    ensures fetched { FetchesUsed (keys_of keys) (place sw.old (V.outside vault.old)) sw.new table result }
    ensures fault { IfErr result (IsOpFault (IsNodeFault (V.outside vault.old) (V.outside vault.new) sw.new) sw.new table) }
    ensures numbers { SameNumbers V.used_words V.directory_at V.most_words V.access vault.old vault.new }
    ensures trapped { (trap : Trap) → result ≡ Err (Traps trap) → (sw.new ≡ sw.old) × (vault.new ≡ vault.old) }
    ensures alive { OnOk result (V.alive vault.new) }
{
    sw.sound();
    let opened = match open_table(sw, keys, table) {
        Ok(opened) => opened,
        Err(fault) => return Err(fault),
    };
    if !opened.used {
        return Ok(None);
    }
    let bound = 2 * bits(sw.num(opened.at, 2)) + 1;
    let root = match counted_root(sw, vault, opened.at) {
        Ok(root) => root,
        Err(fault) => return Err(OpFault::Swizzle(fault)),
    };
    match first(sw, vault, root, bound, keys) {
        Ok(found) => Ok(found),
        Err(fault) => Err(OpFault::Swizzle(fault)),
    }
}

// The string key and the value of a node.
fn text_pair<V: Vault>(
    sw: &mut Swizzle,
    vault: &mut V,
    node: u32,
) -> Result<(u32, u32), SwizzleFault>
    requires alive { V.alive vault.old }
    requires node { IsNode sw.old node }
    ensures read { ReadsPair by_texts (IsTextPair sw.new) (place sw.old (V.outside vault.old)) node result }
    ensures held { IfOk result (λ pair. IsTextHeld sw.new pair.0 × IsHeld sw.new pair.1) }
    ensures grows { OnOk result (Grows sw.old sw.new (V.outside vault.old) (V.outside vault.new)) }
    ensures keeps { OnOk result (Keeps sw.old sw.new) }
    ensures still { OnErr result (Grows sw.old sw.new (V.outside vault.old) (V.outside vault.new)) }
    ensures brings { Brings sw.old sw.new 1 }
    ensures fetched { FetchesPair by_texts (place sw.old (V.outside vault.old)) sw.new node result }
    ensures fault { IfErr result (IsNodeFault (V.outside vault.old) (V.outside vault.new) sw.new) }
    ensures numbers { SameNumbers V.used_words V.directory_at V.most_words V.access vault.old vault.new }
    ensures alive { OnOk result (V.alive vault.new) }
{
    let key = match text_key(sw, vault, node) {
        Ok(key) => key,
        Err(fault) => return Err(fault),
    };
    match value(sw, vault, node) {
        Ok(value) => Ok((key, value)),
        Err(fault) => Err(fault),
    }
}

// The int key and the value of a node.
fn int_pair<V: Vault>(
    sw: &mut Swizzle,
    vault: &mut V,
    node: u32,
) -> Result<(i32, u32), SwizzleFault>
    requires alive { V.alive vault.old }
    requires node { IsNode sw.old node }
    ensures read { ReadsPair by_ints (IsIntPair sw.new) (place sw.old (V.outside vault.old)) node result }
    ensures held { IfOk result (λ pair. IsHeld sw.new pair.1) }
    ensures grows { OnOk result (Grows sw.old sw.new (V.outside vault.old) (V.outside vault.new)) }
    ensures keeps { OnOk result (Keeps sw.old sw.new) }
    ensures still { OnErr result (Grows sw.old sw.new (V.outside vault.old) (V.outside vault.new)) }
    ensures brings { Brings sw.old sw.new 1 }
    ensures fetched { FetchesPair by_ints (place sw.old (V.outside vault.old)) sw.new node result }
    ensures fault { IfErr result (IsNodeFault (V.outside vault.old) (V.outside vault.new) sw.new) }
    ensures numbers { SameNumbers V.used_words V.directory_at V.most_words V.access vault.old vault.new }
    ensures alive { OnOk result (V.alive vault.new) }
{
    sw.sound();
    let key = match int_key(sw, &*vault, node) {
        Ok(key) => key,
        Err(fault) => return Err(fault),
    };
    match value(sw, vault, node) {
        Ok(value) => Ok((key, value)),
        Err(fault) => Err(fault),
    }
}

// The node of the least text key of a table above one, or of the least one where there is none to be above.
fn text_node<V: Vault>(
    sw: &mut Swizzle,
    vault: &mut V,
    after: Option<u32>,
    table: Option<u32>,
) -> Result<Option<u32>, OpFault>
    requires alive { V.alive vault.old }
    requires after { IfSome after (IsTextHeld sw.old) }
    requires table { IfSome table (IsHeld sw.old) }
    ensures found { FindsNode by_texts (place sw.old (V.outside vault.old)) (place sw.new (V.outside vault.new)) table (after_key by_texts (string_of sw.old after)) result }
    ensures node { IfOk result (λ found. IfSome found (IsNode sw.new)) }
    ensures grows { OnOk result (Grows sw.old sw.new (V.outside vault.old) (V.outside vault.new)) }
    ensures keeps { OnOk result (Keeps sw.old sw.new) }
    ensures still { OnErr result (Grows sw.old sw.new (V.outside vault.old) (V.outside vault.new)) }
    ensures brings { (at : ℕ) → table ≡ Some at → Brings sw.old sw.new (2 * digits (num_at sw.old at 2) + 1) }
    ensures fetched { FetchesUsed by_texts (place sw.old (V.outside vault.old)) sw.new table result }
    ensures fault { IfErr result (IsOpFault (IsNodeFault (V.outside vault.old) (V.outside vault.new) sw.new) sw.new table) }
    ensures numbers { SameNumbers V.used_words V.directory_at V.most_words V.access vault.old vault.new }
    ensures trapped { (trap : Trap) → result ≡ Err (Traps trap) → (sw.new ≡ sw.old) × (vault.new ≡ vault.old) }
    ensures alive { OnOk result (V.alive vault.new) }
{
    match after {
        Some(key) => node_above(sw, vault, Key::Text(key), table),
        None => least_node(sw, vault, KeyKind::Texts, table),
    }
}

/// The pair of the least text key of a table above one, or of the least one where there is none to be above; none where no key is above. Nil,
/// WrongClass and KeyKind as `open_table` has them.
pub fn next_text<V: Vault>(
    sw: &mut Swizzle,
    vault: &mut V,
    after: Option<u32>,
    table: Option<u32>,
) -> Result<Option<(u32, u32)>, OpFault>
    requires alive { V.alive vault.old }
    requires after { IfSome after (IsTextHeld sw.old) }
    requires table { IfSome table (IsHeld sw.old) }
    ensures next { FindsPair by_texts (IsTextPair sw.new) (place sw.old (V.outside vault.old)) table (string_of sw.old after) result }
    ensures held { IfOk result (λ found. IfSome found (λ pair. IsTextHeld sw.new pair.0 × IsHeld sw.new pair.1)) }
    ensures grows { OnOk result (Grows sw.old sw.new (V.outside vault.old) (V.outside vault.new)) }
    ensures keeps { OnOk result (Keeps sw.old sw.new) }
    ensures still { OnErr result (Grows sw.old sw.new (V.outside vault.old) (V.outside vault.new)) }
    ensures brings { (at : ℕ) → table ≡ Some at → Brings sw.old sw.new (2 * digits (num_at sw.old at 2) + 2) }
    ensures fetched { FetchesUsed by_texts (place sw.old (V.outside vault.old)) sw.new table result }
    ensures fault { IfErr result (IsOpFault (IsNodeFault (V.outside vault.old) (V.outside vault.new) sw.new) sw.new table) }
    ensures numbers { SameNumbers V.used_words V.directory_at V.most_words V.access vault.old vault.new }
    ensures trapped { (trap : Trap) → result ≡ Err (Traps trap) → (sw.new ≡ sw.old) × (vault.new ≡ vault.old) }
    ensures alive { OnOk result (V.alive vault.new) }
{
    let found = match text_node(sw, vault, after, table) {
        Ok(found) => found,
        Err(fault) => return Err(fault),
    };
    let Some(node) = found else {
        return Ok(None);
    };
    match text_pair(sw, vault, node) {
        Ok(pair) => Ok(Some(pair)),
        Err(fault) => Err(OpFault::Swizzle(fault)),
    }
}

// The node of the least int key of a table above one, or of the least one where there is none to be above.
fn int_node<V: Vault>(
    sw: &mut Swizzle,
    vault: &mut V,
    after: Option<i32>,
    table: Option<u32>,
) -> Result<Option<u32>, OpFault>
    requires alive { V.alive vault.old }
    requires after { IfSome after (λ key. is_int key ≡ true) }
    requires table { IfSome table (IsHeld sw.old) }
    ensures found { FindsNode by_ints (place sw.old (V.outside vault.old)) (place sw.new (V.outside vault.new)) table (after_key by_ints after) result }
    ensures node { IfOk result (λ found. IfSome found (IsNode sw.new)) }
    ensures grows { OnOk result (Grows sw.old sw.new (V.outside vault.old) (V.outside vault.new)) }
    ensures keeps { OnOk result (Keeps sw.old sw.new) }
    ensures still { OnErr result (Grows sw.old sw.new (V.outside vault.old) (V.outside vault.new)) }
    ensures brings { (at : ℕ) → table ≡ Some at → Brings sw.old sw.new (2 * digits (num_at sw.old at 2) + 1) }
    ensures fetched { FetchesUsed by_ints (place sw.old (V.outside vault.old)) sw.new table result }
    ensures fault { IfErr result (IsOpFault (IsNodeFault (V.outside vault.old) (V.outside vault.new) sw.new) sw.new table) }
    ensures numbers { SameNumbers V.used_words V.directory_at V.most_words V.access vault.old vault.new }
    ensures trapped { (trap : Trap) → result ≡ Err (Traps trap) → (sw.new ≡ sw.old) × (vault.new ≡ vault.old) }
    ensures alive { OnOk result (V.alive vault.new) }
{
    match after {
        Some(key) => node_above(sw, vault, Key::Int(key), table),
        None => least_node(sw, vault, KeyKind::Ints, table),
    }
}

/// The pair of the least int key of a table above one, or of the least one where there is none to be above; none where no key is above. Nil,
/// WrongClass and KeyKind as `open_table` has them.
pub fn next_int<V: Vault>(
    sw: &mut Swizzle,
    vault: &mut V,
    after: Option<i32>,
    table: Option<u32>,
) -> Result<Option<(i32, u32)>, OpFault>
    requires alive { V.alive vault.old }
    requires after { IfSome after (λ key. is_int key ≡ true) }
    requires table { IfSome table (IsHeld sw.old) }
    ensures next { FindsPair by_ints (IsIntPair sw.new) (place sw.old (V.outside vault.old)) table after result }
    ensures held { IfOk result (λ found. IfSome found (λ pair. IsHeld sw.new pair.1)) }
    ensures grows { OnOk result (Grows sw.old sw.new (V.outside vault.old) (V.outside vault.new)) }
    ensures keeps { OnOk result (Keeps sw.old sw.new) }
    ensures still { OnErr result (Grows sw.old sw.new (V.outside vault.old) (V.outside vault.new)) }
    ensures brings { (at : ℕ) → table ≡ Some at → Brings sw.old sw.new (2 * digits (num_at sw.old at 2) + 2) }
    ensures fetched { FetchesUsed by_ints (place sw.old (V.outside vault.old)) sw.new table result }
    ensures fault { IfErr result (IsOpFault (IsNodeFault (V.outside vault.old) (V.outside vault.new) sw.new) sw.new table) }
    ensures numbers { SameNumbers V.used_words V.directory_at V.most_words V.access vault.old vault.new }
    ensures trapped { (trap : Trap) → result ≡ Err (Traps trap) → (sw.new ≡ sw.old) × (vault.new ≡ vault.old) }
    ensures alive { OnOk result (V.alive vault.new) }
{
    let found = match int_node(sw, vault, after, table) {
        Ok(found) => found,
        Err(fault) => return Err(fault),
    };
    let Some(node) = found else {
        return Ok(None);
    };
    match int_pair(sw, vault, node) {
        Ok(pair) => Ok(Some(pair)),
        Err(fault) => Err(OpFault::Swizzle(fault)),
    }
}
