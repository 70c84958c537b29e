//! Tables: finite maps from strings or ints to objects.
ghost use Rattle.std.specs.Prelude.{◌≡◌, ◌<◌, ℕ, List, Option, Some, true, IfOk, IfSome, OnErr, OnOk};
ghost use Rattle.joint_ops.specs.obj_layout.declared.reference.Reference.{Reference};
ghost use Rattle.joint_ops.specs.obj_layout.Storing.{SameNumbers};
ghost use Rattle.joint_ops.specs.swizzle.Heap.{IsHeld, Stands as AllStand};
ghost use Rattle.joint_ops.specs.swizzle.Reading.{LeavesOutside};
ghost use Rattle.joint_ops.specs.swizzle.Touch.{Keeps};
ghost use Rattle.joint_ops.specs.heap_ops.Outcomes.{UnlessFault};
ghost use Rattle.joint_ops.specs.ps_heap.Objects as meaning;
ghost use Rattle.joint_ops.specs.ps_heap.Operators.{is_int};
ghost use Rattle.joint_ops.specs.ps_heap.Tables.{Key as MeantKey, string_key, int_key, without_keys};
ghost use Rattle.joint_ops.specs.ps_heap.Texts.{Yields};
ghost use Rattle.joint_ops.specs.ps_heap.Held.{Held};
ghost use Rattle.joint_ops.specs.ps_heap.Values as meant;
ghost use Rattle.joint_ops.specs.World.{IsWorld, DenotesIn, Answers, BreaksAsReading};
ghost use Rattle.joint_ops.specs.Made.{Makes, BreaksAsMaking};
ghost use Rattle.joint_tables.specs.Tables.{IsLastText, IsPntr, LooksUp, NextInt, NextText, entries_of, last_int_key};
ghost use Rattle.joint_tables.specs.table_lib.table_nodes.Sought.{IsTextHeld};
ghost use Rattle.joint_held.specs.reach_commit.commit_walk.declared.homes.Source.{Source};
ghost use Rattle.joint_held.specs.Held.{HoldsRun};
ghost use Rattle.objects.specs.Entering.{EntersRun};

use super::Objects;
use joint_ops::OpFault;
use joint_ops::obj_layout::vault::Vault;
use joint_ops::swizzle::swizzle::Swizzle;
use joint_tables::table_lib::table_nodes::counted_steps::steps::Steps;
use joint_tables::tables;
use std::marker::Brand;
use std::sync::ledger::{Blank, Ledger};

impl Objects {
    /// Makes a table that never had a key. AreaFull exactly where there is no room for its 8 words; then the area stays.
    #[inline]
    pub fn make_table<V: Vault>(&mut self, vault: &V) -> Result<u32, OpFault>
        ensures made { (of : meaning.Heap) (names : List Reference) → IsWorld self.old (V.outside vault.now) of names
            → Makes self.old self.new (V.outside vault.now) of names meant.Pointer (Yields (meaning.Keyed without_keys)) result }
        ensures held { IfOk result (IsHeld self.new) }
        ensures fails { BreaksAsMaking self.old self.new result }
        ensures keeps { Keeps self.old self.new }
    {
        tables::table_new(&mut self.sw, vault)
    }

    /// The object under a string of the table that a value denotes, none where the table hasn't the string. Trap Nil for nil, WrongClass for an object that is no table, KeyKind for a table with keys of the other kind.
    /// What isn't in the area is fetched.
    #[inline]
    pub fn lookup_text<V: Vault>(
        &mut self,
        vault: &mut V,
        key: u32,
        table: Option<u32>,
    ) -> Result<Option<u32>, OpFault>
        requires alive { V.alive vault.old }
        requires key { IsTextHeld self.old key }
        requires table { IfSome table (IsHeld self.old) }
        ensures looked { (of : meaning.Heap) (names : List Reference) (bytes : List ℕ) (v : meant.Value) → IsWorld self.old (V.outside vault.old) of names
            → DenotesIn self.old (V.outside vault.old) names (Some key) (meant.Text bytes) → DenotesIn self.old (V.outside vault.old) names table v
            → LooksUp self.old self.new (V.outside vault.old) (V.outside vault.new) of names v (string_key bytes) result }
        ensures held { IfOk result (λ found. IfSome found (IsHeld self.new)) }
        ensures keeps { Keeps self.old self.new }
        ensures fails { BreaksAsReading (V.outside vault.old) (V.outside vault.new) result }
        ensures leaves { LeavesOutside (V.outside vault.old) (V.outside vault.new) }
        ensures numbers { SameNumbers V.used_words V.directory_at V.most_words V.access vault.old vault.new }
        ensures alive { UnlessFault result (V.alive vault.new) }
    {
        let got = find_text::<V, Brand>(&mut self.sw, vault, key, table, Blank::new(1));
        match got {
            Ok(found) => Ok(found),
            Err(fault) => Err(self.known.keep(fault)),
        }
    }

    /// The object under an int of the table that a value denotes, none where the table hasn't the int. The same traps. What isn't in the area is fetched.
    #[inline]
    pub fn lookup_int<V: Vault>(
        &mut self,
        vault: &mut V,
        key: i32,
        table: Option<u32>,
    ) -> Result<Option<u32>, OpFault>
        requires alive { V.alive vault.old }
        requires table { IfSome table (IsHeld self.old) }
        ensures looked { (of : meaning.Heap) (names : List Reference) (v : meant.Value) → IsWorld self.old (V.outside vault.old) of names
            → DenotesIn self.old (V.outside vault.old) names table v
            → LooksUp self.old self.new (V.outside vault.old) (V.outside vault.new) of names v (int_key key) result }
        ensures held { IfOk result (λ found. IfSome found (IsHeld self.new)) }
        ensures keeps { Keeps self.old self.new }
        ensures fails { BreaksAsReading (V.outside vault.old) (V.outside vault.new) result }
        ensures leaves { LeavesOutside (V.outside vault.old) (V.outside vault.new) }
        ensures numbers { SameNumbers V.used_words V.directory_at V.most_words V.access vault.old vault.new }
        ensures alive { UnlessFault result (V.alive vault.new) }
    {
        let got = find_int::<V, Brand>(&mut self.sw, vault, key, table, Blank::new(1));
        match got {
            Ok(found) => Ok(found),
            Err(fault) => Err(self.known.keep(fault)),
        }
    }

    /// The least string above one, or the least of all where there is none, of the table that a value denotes, with the object under it; none where no
    /// string is above. The same traps. What isn't in the area is fetched.
    #[inline]
    pub fn next_text<V: Vault>(
        &mut self,
        vault: &mut V,
        after: Option<u32>,
        table: Option<u32>,
    ) -> Result<Option<(u32, u32)>, OpFault>
        requires alive { V.alive vault.old }
        requires after { IfSome after (IsTextHeld self.old) }
        requires table { IfSome table (IsHeld self.old) }
        ensures next { (of : meaning.Heap) (names : List Reference) (last : Option MeantKey) (v : meant.Value) → IsWorld self.old (V.outside vault.old) of names
            → IsLastText self.old (V.outside vault.old) names after last → DenotesIn self.old (V.outside vault.old) names table v
            → NextText self.old self.new (V.outside vault.old) (V.outside vault.new) of names v last result }
        ensures held { IfOk result (λ found. IfSome found (λ pair. IsTextHeld self.new pair.0 × IsHeld self.new pair.1)) }
        ensures keeps { Keeps self.old self.new }
        ensures fails { BreaksAsReading (V.outside vault.old) (V.outside vault.new) result }
        ensures leaves { LeavesOutside (V.outside vault.old) (V.outside vault.new) }
        ensures numbers { SameNumbers V.used_words V.directory_at V.most_words V.access vault.old vault.new }
        ensures alive { UnlessFault result (V.alive vault.new) }
    {
        let got = tables::next_text(&mut self.sw, vault, after, table);
        match got {
            Ok(found) => Ok(found),
            Err(fault) => Err(self.known.keep(fault)),
        }
    }

    /// The least int above one, or the least of all where there is none, of the table that a value denotes, with the object under it; none where no int is
    /// above. The same traps. What isn't in the area is fetched.
    #[inline]
    pub fn next_int<V: Vault>(
        &mut self,
        vault: &mut V,
        after: Option<i32>,
        table: Option<u32>,
    ) -> Result<Option<(i32, u32)>, OpFault>
        requires alive { V.alive vault.old }
        requires after { IfSome after (λ key. is_int key ≡ true) }
        requires table { IfSome table (IsHeld self.old) }
        ensures next { (of : meaning.Heap) (names : List Reference) (v : meant.Value) → IsWorld self.old (V.outside vault.old) of names
            → DenotesIn self.old (V.outside vault.old) names table v
            → NextInt self.old self.new (V.outside vault.old) (V.outside vault.new) of names v (last_int_key after) result }
        ensures held { IfOk result (λ found. IfSome found (λ pair. IsHeld self.new pair.1)) }
        ensures keeps { Keeps self.old self.new }
        ensures fails { BreaksAsReading (V.outside vault.old) (V.outside vault.new) result }
        ensures leaves { LeavesOutside (V.outside vault.old) (V.outside vault.new) }
        ensures numbers { SameNumbers V.used_words V.directory_at V.most_words V.access vault.old vault.new }
        ensures alive { UnlessFault result (V.alive vault.new) }
    {
        let got = tables::next_int(&mut self.sw, vault, after, table);
        match got {
            Ok(found) => Ok(found),
            Err(fault) => Err(self.known.keep(fault)),
        }
    }

    /// Enters what a value denotes under a string of the table that another value denotes, or takes the string out for nil, and notes the table as assigned.
    /// The same traps. What isn't in the area is fetched. Where there is a fault nothing was written.
    #[inline]
    pub fn enter_text<V: Vault>(
        &mut self,
        vault: &mut V,
        key: u32,
        table: Option<u32>,
        to: Option<u32>,
    ) -> Result<(), OpFault>
        requires alive { V.alive vault.old }
        requires key { IsTextHeld self.old key }
        requires table { IfSome table (IsHeld self.old) }
        requires to { IfSome to (IsHeld self.old) }
        ensures run { (names : List Reference) (writing : List Source) (directory : Option ℕ) (h : Held) (bytes : List ℕ) (v w : meant.Value) → HoldsRun self.old (V.outside vault.old) names writing directory h
            → DenotesIn self.old (V.outside vault.old) names (Some key) (meant.Text bytes)
            → DenotesIn self.old (V.outside vault.old) names table v → DenotesIn self.old (V.outside vault.old) names to w → IsPntr w
            → EntersRun self.old self.new (V.outside vault.old) (V.outside vault.new) names writing directory h v (string_key bytes) w result }
        ensures fails { BreaksAsReading (V.outside vault.old) (V.outside vault.new) result }
        ensures leaves { LeavesOutside (V.outside vault.old) (V.outside vault.new) }
        ensures numbers { SameNumbers V.used_words V.directory_at V.most_words V.access vault.old vault.new }
        ensures alive { UnlessFault result (V.alive vault.new) }
        ensures stands { UnlessFault result (AllStand self.old self.new) }
        ensures size { UnlessFault result (self.new.size ≡ self.old.size) }
    {
        self.sw.sound();
        let done = tables::enter_text(&mut self.sw, vault, key, table, to);
        self.sw.sound();
        match done {
            Ok(()) => Ok(()),
            Err(fault) => Err(self.known.keep(fault)),
        }
    }

    /// Enters what a value denotes under an int of the table that another value denotes, or takes the int out for nil, and notes the table as assigned. The
    /// same traps. What isn't in the area is fetched. Where there is a fault nothing was written.
    #[inline]
    pub fn enter_int<V: Vault>(
        &mut self,
        vault: &mut V,
        key: i32,
        table: Option<u32>,
        to: Option<u32>,
    ) -> Result<(), OpFault>
        requires alive { V.alive vault.old }
        requires table { IfSome table (IsHeld self.old) }
        requires to { IfSome to (IsHeld self.old) }
        ensures run { (names : List Reference) (writing : List Source) (directory : Option ℕ) (h : Held) (v w : meant.Value) → HoldsRun self.old (V.outside vault.old) names writing directory h
            → DenotesIn self.old (V.outside vault.old) names table v → DenotesIn self.old (V.outside vault.old) names to w → IsPntr w
            → EntersRun self.old self.new (V.outside vault.old) (V.outside vault.new) names writing directory h v (int_key key) w result }
        ensures fails { BreaksAsReading (V.outside vault.old) (V.outside vault.new) result }
        ensures leaves { LeavesOutside (V.outside vault.old) (V.outside vault.new) }
        ensures numbers { SameNumbers V.used_words V.directory_at V.most_words V.access vault.old vault.new }
        ensures alive { UnlessFault result (V.alive vault.new) }
        ensures stands { UnlessFault result (AllStand self.old self.new) }
        ensures size { UnlessFault result (self.new.size ≡ self.old.size) }
    {
        self.sw.sound();
        let done = tables::enter_int(&mut self.sw, vault, key, table, to);
        self.sw.sound();
        match done {
            Ok(()) => Ok(()),
            Err(fault) => Err(self.known.keep(fault)),
        }
    }

    /// How many pairs the table has that a value denotes. Trap Nil for nil, WrongClass for an object that is no table. The vault is there for the clause
    /// alone.
    #[inline]
    pub fn cardinality<V: Vault>(&self, vault: &V, table: Option<u32>) -> Result<u32, OpFault>
        requires table { IfSome table (IsHeld self.now) }
        ensures counted { (of : meaning.Heap) (names : List Reference) (v : meant.Value) → IsWorld self.now (V.outside vault.now) of names
            → DenotesIn self.now (V.outside vault.now) names table v
            → Answers self.now self.now (V.outside vault.now) (V.outside vault.now) (λ count wanted. count ≡ wanted) of names (entries_of of v) result }
        ensures fails { BreaksAsReading (V.outside vault.now) (V.outside vault.now) result }
    {
        tables::cardinality(&self.sw, vault, table)
    }
}

// What a lookup finds. Nothing is counted.
fn find_text<V: Vault, L: Ledger>(
    sw: &mut Swizzle,
    vault: &mut V,
    key: u32,
    table: Option<u32>,
    blank: Blank,
) -> Result<Option<u32>, OpFault>
    requires name { blank.name ≡ L.name }
    requires parts { blank.parts ≡ L.parts }
    requires some { 0 < L.parts }
    requires alive { V.alive vault.old }
    requires key { IsTextHeld sw.old key }
    requires table { IfSome table (IsHeld sw.old) }
    ensures looked { (of : meaning.Heap) (names : List Reference) (bytes : List ℕ) (v : meant.Value) → IsWorld sw.old (V.outside vault.old) of names
        → DenotesIn sw.old (V.outside vault.old) names (Some key) (meant.Text bytes)
        → DenotesIn sw.old (V.outside vault.old) names table v → LooksUp sw.old sw.new (V.outside vault.old) (V.outside vault.new) of names v (string_key bytes) result }
    ensures held { IfOk result (λ found. IfSome found (IsHeld sw.new)) }
    ensures keeps { Keeps sw.old sw.new }
    ensures fails { BreaksAsReading (V.outside vault.old) (V.outside vault.new) result }
    ensures leaves { LeavesOutside (V.outside vault.old) (V.outside vault.new) }
    ensures numbers { SameNumbers V.used_words V.directory_at V.most_words V.access vault.old vault.new }
    ensures alive { UnlessFault result (V.alive vault.new) }
{
    let mut steps = Steps::<L>::new(blank);
    tables::lookup_text(sw, vault, key, table, &mut steps)
}

// What a lookup finds. Nothing is counted.
fn find_int<V: Vault, L: Ledger>(
    sw: &mut Swizzle,
    vault: &mut V,
    key: i32,
    table: Option<u32>,
    blank: Blank,
) -> Result<Option<u32>, OpFault>
    requires name { blank.name ≡ L.name }
    requires parts { blank.parts ≡ L.parts }
    requires some { 0 < L.parts }
    requires alive { V.alive vault.old }
    requires table { IfSome table (IsHeld sw.old) }
    ensures looked { (of : meaning.Heap) (names : List Reference) (v : meant.Value) → IsWorld sw.old (V.outside vault.old) of names
        → DenotesIn sw.old (V.outside vault.old) names table v → LooksUp sw.old sw.new (V.outside vault.old) (V.outside vault.new) of names v (int_key key) result }
    ensures held { IfOk result (λ found. IfSome found (IsHeld sw.new)) }
    ensures keeps { Keeps sw.old sw.new }
    ensures fails { BreaksAsReading (V.outside vault.old) (V.outside vault.new) result }
    ensures leaves { LeavesOutside (V.outside vault.old) (V.outside vault.new) }
    ensures numbers { SameNumbers V.used_words V.directory_at V.most_words V.access vault.old vault.new }
    ensures alive { UnlessFault result (V.alive vault.new) }
{
    let mut steps = Steps::<L>::new(blank);
    tables::lookup_int(sw, vault, key, table, &mut steps)
}
