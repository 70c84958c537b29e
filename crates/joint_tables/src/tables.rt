//! The operations on tables.
ghost use Rattle.std.specs.Prelude.{◌≡◌, ℕ, ◌+◌, ◌*◌, ◌≤◌, true, false, List, Some, Option, IfErr, IfOk, IfSome, OnOk, OnErr};
ghost use Rattle.joint_ops.specs.obj_layout.declared.reference.Reference.{Reference};
ghost use Rattle.joint_ops.specs.obj_layout.Storing.{SameNumbers};
ghost use Rattle.joint_ops.specs.swizzle.Heap.{IsHeld, Stands as AllStand, num_at};
ghost use Rattle.joint_ops.specs.swizzle.Reading.{LeavesOutside};
ghost use Rattle.joint_ops.specs.swizzle.Text.{text_at};
ghost use Rattle.joint_ops.specs.swizzle.Touch.{Keeps};
ghost use Rattle.joint_ops.specs.heap_ops.Outcomes.{UnlessFault};
ghost use Rattle.joint_ops.specs.ps_heap.Objects as meaning;
ghost use Rattle.joint_ops.specs.ps_heap.Operators.{is_int};
ghost use Rattle.joint_ops.specs.ps_heap.Scans.{next_key};
ghost use Rattle.joint_ops.specs.ps_heap.Tables.{Key as MeantKey, string_key, int_key, without_keys};
ghost use Rattle.joint_ops.specs.ps_heap.Texts.{Yields};
ghost use Rattle.joint_ops.specs.ps_heap.Values as meant;
ghost use Rattle.joint_ops.specs.World.{IsWorld, DenotesIn, Answers, BreaksAsReading};
ghost use Rattle.joint_ops.specs.Made.{Makes, BreaksAsMaking};
ghost use Rattle.joint_tables.specs.Tables.{EntersKey, IsLastText, IsPntr, LooksUp, NamesTable, NextInt, NextText, entries_of, last_int_key};
ghost use Rattle.table_lib.specs.Entries.{Enters, SparesBut};
ghost use Rattle.table_lib.specs.Faults.{IsOpFault, IsOpenFault};
ghost use Rattle.table_lib.specs.Tables.{IsUnused};
ghost use Rattle.table_lib.specs.table_nodes.avl_trees.Trees.{bits as digits};
ghost use Rattle.table_lib.specs.table_nodes.Bringing.{Brings};
ghost use Rattle.table_lib.specs.table_nodes.Faults.{IsChangeFault, IsNodeFault};
ghost use Rattle.table_lib.specs.table_nodes.Nodes.{Grows};
ghost use Rattle.table_lib.specs.table_nodes.Sought.{IsTextHeld};
ghost use Rattle.table_lib.specs.table_nodes.Spans.{IsValueOf};
ghost use Rattle.table_lib.specs.table_nodes.Steps.{place};
ghost use Rattle.table_lib.specs.table_nodes.node_rows.Keys.{by_ints, by_texts};
ghost use Rattle.table_lib.specs.table_nodes.declared.keys.Key.TheVariants.{Int, Text};

use joint_ops::OpFault;
use joint_ops::obj_layout::vault::Vault;
use joint_ops::swizzle::swizzle::Swizzle;
use std::sync::ledger::Ledger;
use table_lib::table_nodes::counted_steps::steps::Steps;
use table_lib::{enter, lookup, next, table};

/// The object under a string of the table that a value denotes, none where the table hasn't the string. The string is that of a text of the
/// area. Trap Nil for nil, WrongClass for an object that is no table, KeyKind for a table whose keys are ints. What isn't in the area is
/// fetched. Each node that is looked at is a step, at most two for each binary digit of the number of pairs, and two.
#[inline]
pub fn lookup_text<V: Vault, L: Ledger>(
    sw: &mut Swizzle,
    vault: &mut V,
    key: u32,
    table: Option<u32>,
    steps: &mut Steps<L>,
) -> Result<Option<u32>, OpFault>
    requires alive { V.alive vault.old }
    requires key { IsTextHeld sw.old key }
    requires table { IfSome table (IsHeld sw.old) }
    ensures looked { (of : meaning.Heap) (names : List Reference) (bytes : List ℕ) (v : meant.Value) → IsWorld sw.old (V.outside vault.old) of names
        → DenotesIn sw.old (V.outside vault.old) names (Some key) (meant.Text bytes) → DenotesIn sw.old (V.outside vault.old) names table v
        → LooksUp sw.old sw.new (V.outside vault.old) (V.outside vault.new) of names v (string_key bytes) result }
    ensures held { IfOk result (λ found. IfSome found (IsHeld sw.new)) }
    ensures value { IfOk result (λ found. IfSome found (IsValueOf sw.new (Text key))) }
    ensures cost { (at : ℕ) → table ≡ Some at → steps.new ≤ steps.old + (2 * digits (num_at sw.old at 2) + 2) }
    ensures keeps { Keeps sw.old sw.new }
    ensures brings { (at : ℕ) → table ≡ Some at → Brings sw.old sw.new (2 * digits (num_at sw.old at 2) + 2) }
    ensures fault { IfErr result (IsOpFault (IsNodeFault (V.outside vault.old) (V.outside vault.new) sw.new) sw.new table) }
    ensures fails { BreaksAsReading (V.outside vault.old) (V.outside vault.new) result }
    ensures leaves { LeavesOutside (V.outside vault.old) (V.outside vault.new) }
    ensures numbers { SameNumbers V.used_words V.directory_at V.most_words V.access vault.old vault.new }
    ensures alive { UnlessFault result (V.alive vault.new) }
{
    sw.sound();
    let found = lookup::lookup_text(sw, vault, key, table, steps);
    sw.sound();
    found
}

/// The object under an int of the table that a value denotes, none where the table hasn't the int. Trap Nil for nil, WrongClass for an object
/// that is no table, KeyKind for a table whose keys are strings. What isn't in the area is fetched. Steps as with `lookup_text`.
#[inline]
pub fn lookup_int<V: Vault, L: Ledger>(
    sw: &mut Swizzle,
    vault: &mut V,
    key: i32,
    table: Option<u32>,
    steps: &mut Steps<L>,
) -> Result<Option<u32>, OpFault>
    requires alive { V.alive vault.old }
    requires table { IfSome table (IsHeld sw.old) }
    ensures looked { (of : meaning.Heap) (names : List Reference) (v : meant.Value) → IsWorld sw.old (V.outside vault.old) of names
        → DenotesIn sw.old (V.outside vault.old) names table v
        → LooksUp sw.old sw.new (V.outside vault.old) (V.outside vault.new) of names v (int_key key) result }
    ensures held { IfOk result (λ found. IfSome found (IsHeld sw.new)) }
    ensures value { IfOk result (λ found. IfSome found (IsValueOf sw.new (Int key))) }
    ensures cost { (at : ℕ) → table ≡ Some at → steps.new ≤ steps.old + (2 * digits (num_at sw.old at 2) + 2) }
    ensures keeps { Keeps sw.old sw.new }
    ensures brings { (at : ℕ) → table ≡ Some at → Brings sw.old sw.new (2 * digits (num_at sw.old at 2) + 2) }
    ensures fault { IfErr result (IsOpFault (IsNodeFault (V.outside vault.old) (V.outside vault.new) sw.new) sw.new table) }
    ensures fails { BreaksAsReading (V.outside vault.old) (V.outside vault.new) result }
    ensures leaves { LeavesOutside (V.outside vault.old) (V.outside vault.new) }
    ensures numbers { SameNumbers V.used_words V.directory_at V.most_words V.access vault.old vault.new }
    ensures alive { UnlessFault result (V.alive vault.new) }
{
    sw.sound();
    let found = lookup::lookup_int(sw, vault, key, table, steps);
    sw.sound();
    found
}

/// The least string above one, or the least of all at the start of a scan, of the table that a value denotes, with the object under it; none
/// where no string is above. The string is answered as a text of the area. The same traps as those of `lookup_text`. What isn't in the area is
/// fetched.
#[inline]
pub fn next_text<V: Vault>(
    sw: &mut Swizzle,
    vault: &mut V,
    after: Option<u32>,
    table: Option<u32>,
) -> Result<Option<(u32, u32)>, OpFault>
    requires alive { V.alive vault.old }
    requires after { IfSome after (IsTextHeld sw.old) }
    requires table { IfSome table (IsHeld sw.old) }
    ensures next { (of : meaning.Heap) (names : List Reference) (last : Option MeantKey) (v : meant.Value)
        → IsWorld sw.old (V.outside vault.old) of names
        → IsLastText sw.old (V.outside vault.old) names after last → DenotesIn sw.old (V.outside vault.old) names table v
        → NextText sw.old sw.new (V.outside vault.old) (V.outside vault.new) of names v last result }
    ensures held { IfOk result (λ found. IfSome found (λ pair. IsTextHeld sw.new pair.0 × IsHeld sw.new pair.1)) }
    ensures keeps { Keeps sw.old sw.new }
    ensures brings { (at : ℕ) → table ≡ Some at → Brings sw.old sw.new (2 * digits (num_at sw.old at 2) + 2) }
    ensures fault { IfErr result (IsOpFault (IsNodeFault (V.outside vault.old) (V.outside vault.new) sw.new) sw.new table) }
    ensures fails { BreaksAsReading (V.outside vault.old) (V.outside vault.new) result }
    ensures leaves { LeavesOutside (V.outside vault.old) (V.outside vault.new) }
    ensures numbers { SameNumbers V.used_words V.directory_at V.most_words V.access vault.old vault.new }
    ensures alive { UnlessFault result (V.alive vault.new) }
{
    sw.sound();
    let found = next::next_text(sw, vault, after, table);
    sw.sound();
    found
}

/// The least int above one, or the least of all at the start of a scan, of the table that a value denotes, with the object under it; none where
/// no int is above. The same traps as those of `lookup_int`. What isn't in the area is fetched.
#[inline]
pub fn next_int<V: Vault>(
    sw: &mut Swizzle,
    vault: &mut V,
    after: Option<i32>,
    table: Option<u32>,
) -> Result<Option<(i32, u32)>, OpFault>
    requires alive { V.alive vault.old }
    requires after { IfSome after (λ key. is_int key ≡ true) }
    requires table { IfSome table (IsHeld sw.old) }
    ensures next { (of : meaning.Heap) (names : List Reference) (v : meant.Value) → IsWorld sw.old (V.outside vault.old) of names
        → DenotesIn sw.old (V.outside vault.old) names table v
        → NextInt sw.old sw.new (V.outside vault.old) (V.outside vault.new) of names v (last_int_key after) result }
    ensures held { IfOk result (λ found. IfSome found (λ pair. IsHeld sw.new pair.1)) }
    ensures keeps { Keeps sw.old sw.new }
    ensures brings { (at : ℕ) → table ≡ Some at → Brings sw.old sw.new (2 * digits (num_at sw.old at 2) + 2) }
    ensures fault { IfErr result (IsOpFault (IsNodeFault (V.outside vault.old) (V.outside vault.new) sw.new) sw.new table) }
    ensures fails { BreaksAsReading (V.outside vault.old) (V.outside vault.new) result }
    ensures leaves { LeavesOutside (V.outside vault.old) (V.outside vault.new) }
    ensures numbers { SameNumbers V.used_words V.directory_at V.most_words V.access vault.old vault.new }
    ensures alive { UnlessFault result (V.alive vault.new) }
{
    sw.sound();
    let found = next::next_int(sw, vault, after, table);
    sw.sound();
    found
}

/// Enters what a value denotes under a string of the table that another value denotes, or takes the string out for nil, and notes the table as
/// assigned. The same traps as those of `lookup_text`. What isn't in the area is fetched. Where there is a fault nothing was written.
#[inline]
pub fn enter_text<V: Vault>(
    sw: &mut Swizzle,
    vault: &mut V,
    key: u32,
    table: Option<u32>,
    to: Option<u32>,
) -> Result<(), OpFault>
    requires alive { V.alive vault.old }
    requires key { IsTextHeld sw.old key }
    requires table { IfSome table (IsHeld sw.old) }
    requires to { IfSome to (IsHeld sw.old) }
    ensures entered { (of : meaning.Heap) (names : List Reference) (bytes : List ℕ) (v w : meant.Value)
        → IsWorld sw.old (V.outside vault.old) of names
        → DenotesIn sw.old (V.outside vault.old) names (Some key) (meant.Text bytes) → DenotesIn sw.old (V.outside vault.old) names table v
        → DenotesIn sw.old (V.outside vault.old) names to w → IsPntr w
        → EntersKey sw.old sw.new (V.outside vault.old) (V.outside vault.new) of names table v (string_key bytes) w result }
    ensures table { OnOk result (NamesTable sw.old table) }
    ensures pairs { Enters by_texts (place sw.old (V.outside vault.old)) (place sw.new (V.outside vault.new)) table (text_at sw.old key) to result }
    ensures spares { (at : ℕ) → table ≡ Some at → OnOk result (SparesBut at sw.old sw.new (V.outside vault.old) (V.outside vault.new)) }
    ensures still { OnErr result (Grows sw.old sw.new (V.outside vault.old) (V.outside vault.new)) }
    ensures brings { (at : ℕ) → table ≡ Some at → Brings sw.old sw.new (3 * (2 * digits (num_at sw.old at 2) + 2)) }
    ensures fault { IfErr result (IsOpFault (IsChangeFault (V.outside vault.old) (V.outside vault.new) sw.new) sw.new table) }
    ensures fails { BreaksAsReading (V.outside vault.old) (V.outside vault.new) result }
    ensures leaves { LeavesOutside (V.outside vault.old) (V.outside vault.new) }
    ensures numbers { SameNumbers V.used_words V.directory_at V.most_words V.access vault.old vault.new }
    ensures alive { UnlessFault result (V.alive vault.new) }
{
    sw.sound();
    let done = enter::enter_text(sw, vault, key, table, to);
    sw.sound();
    done
}

/// Enters what a value denotes under an int of the table that another value denotes, or takes the int out for nil, and notes the table as
/// assigned. The same traps as those of `lookup_int`. What isn't in the area is fetched. Where there is a fault nothing was written.
#[inline]
pub fn enter_int<V: Vault>(
    sw: &mut Swizzle,
    vault: &mut V,
    key: i32,
    table: Option<u32>,
    to: Option<u32>,
) -> Result<(), OpFault>
    requires alive { V.alive vault.old }
    requires table { IfSome table (IsHeld sw.old) }
    requires to { IfSome to (IsHeld sw.old) }
    ensures entered { (of : meaning.Heap) (names : List Reference) (v w : meant.Value) → IsWorld sw.old (V.outside vault.old) of names
        → DenotesIn sw.old (V.outside vault.old) names table v → DenotesIn sw.old (V.outside vault.old) names to w → IsPntr w
        → EntersKey sw.old sw.new (V.outside vault.old) (V.outside vault.new) of names table v (int_key key) w result }
    ensures table { OnOk result (NamesTable sw.old table) }
    ensures pairs { Enters by_ints (place sw.old (V.outside vault.old)) (place sw.new (V.outside vault.new)) table key to result }
    ensures spares { (at : ℕ) → table ≡ Some at → OnOk result (SparesBut at sw.old sw.new (V.outside vault.old) (V.outside vault.new)) }
    ensures still { OnErr result (Grows sw.old sw.new (V.outside vault.old) (V.outside vault.new)) }
    ensures brings { (at : ℕ) → table ≡ Some at → Brings sw.old sw.new (3 * (2 * digits (num_at sw.old at 2) + 2)) }
    ensures fault { IfErr result (IsOpFault (IsChangeFault (V.outside vault.old) (V.outside vault.new) sw.new) sw.new table) }
    ensures fails { BreaksAsReading (V.outside vault.old) (V.outside vault.new) result }
    ensures leaves { LeavesOutside (V.outside vault.old) (V.outside vault.new) }
    ensures numbers { SameNumbers V.used_words V.directory_at V.most_words V.access vault.old vault.new }
    ensures alive { UnlessFault result (V.alive vault.new) }
{
    sw.sound();
    let done = enter::enter_int(sw, vault, key, table, to);
    sw.sound();
    done
}

/// How many pairs the table has that a value denotes. Trap Nil for nil, WrongClass for an object that is no table. The vault is there for the
/// clause alone.
#[inline]
pub fn cardinality<V: Vault>(sw: &Swizzle, vault: &V, table: Option<u32>) -> Result<u32, OpFault>
    requires table { IfSome table (IsHeld sw.now) }
    ensures counted { (of : meaning.Heap) (names : List Reference) (v : meant.Value) → IsWorld sw.now (V.outside vault.now) of names
        → DenotesIn sw.now (V.outside vault.now) names table v
        → Answers sw.now sw.now (V.outside vault.now) (V.outside vault.now) (λ count wanted. count ≡ wanted) of names (entries_of of v) result }
    ensures fault { IfErr result (IsOpenFault sw.now table) }
    ensures fails { BreaksAsReading (V.outside vault.now) (V.outside vault.now) result }
{
    sw.sound();
    table::cardinality(sw, vault, table)
}

/// Makes a table that never had a key. AreaFull exactly where there is no room for its 8 words; then the area stays. The vault is there for the
/// clause alone.
#[inline]
pub fn table_new<V: Vault>(sw: &mut Swizzle, _vault: &V) -> Result<u32, OpFault>
    ensures made { (of : meaning.Heap) (names : List Reference) → IsWorld sw.old (V.outside _vault.now) of names
        → Makes sw.old sw.new (V.outside _vault.now) of names meant.Pointer (Yields (meaning.Keyed without_keys)) result }
    ensures unused { IfOk result (IsUnused sw.new) }
    ensures fails { BreaksAsMaking sw.old sw.new result }
    ensures keeps { Keeps sw.old sw.new }
    ensures stands { AllStand sw.old sw.new }
{
    sw.sound();
    let made = table::table_new(sw);
    sw.sound();
    match made {
        Ok(at) => Ok(at),
        Err(fault) => Err(OpFault::Swizzle(fault)),
    }
}
