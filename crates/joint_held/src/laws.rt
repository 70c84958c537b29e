//! Laws of what a run holds.
ghost use Rattle.std.specs.Prelude.{◌≡◌, ℕ, suc, true, [], length, List, Option, Some, None};
ghost use Rattle.joint_ops.specs.obj_layout.declared.reference.Reference.{Reference};
ghost use Rattle.joint_ops.specs.swizzle.Heap.{Heap, IsHeap, IsHeld, IsMade, blank, fresh_heap, header_at};
ghost use Rattle.joint_ops.specs.swizzle.Objects.{Object};
ghost use Rattle.joint_ops.specs.swizzle.Joint.{name_at};
ghost use Rattle.joint_ops.specs.heap_places.Places.{assigned_value};
ghost use Rattle.joint_ops.specs.heap_places.declared.value.Value.{Value};
ghost use Rattle.joint_ops.specs.heap_meaning.Paired.{and_name, paired};
ghost use Rattle.joint_ops.specs.ps_heap.Objects.{Object as Meant, Keyed};
ghost use Rattle.joint_ops.specs.ps_heap.Tables.{without_keys};
ghost use Rattle.joint_ops.specs.obj_layout.declared.kind.Kind.TheVariants as Kind;
ghost use Rattle.joint_ops.specs.ps_heap.Objects as meant;
ghost use Rattle.joint_ops.specs.ps_heap.Held.{Held, Place, assigning, home_at, made, object_of};
ghost use Rattle.joint_ops.specs.ps_heap.Databases.{Database, Reading, Writing, open_for_writing};
ghost use Rattle.joint_ops.specs.ps_heap.Calls.{directory_known};
ghost use Rattle.joint_ops.specs.Seeing.{Gains, seen};
ghost use Rattle.joint_ops.specs.Writing.{HasParts, IsBehindHome, IsWrite};
ghost use Rattle.db_dir.specs.Directories.{IsDirectoryAt};
ghost use Rattle.new_pids.specs.Giving.{AreBelow};
ghost use Rattle.reach_commit.specs.commit_walk.reaching.Reaching.{IsIn};
ghost use Rattle.reach_commit.specs.commit_walk.declared.homes.Source.{Source};
ghost use Rattle.joint_held.specs.Held.{HoldsRun};
ghost use Rattle.joint_held.specs.Keeping.{MayBeTouched, IsTouch, IsMaking, GetsId, IsEmpty, word_0};
ghost use Rattle.joint_held.specs.Entering.{EntersTable};
ghost use Rattle.joint_held.specs.Opening.{CreatesDatabase, and_source, with_database, with_opening};
ghost use Rattle.joint_held.specs.Writing.{HoldsAlike, WritesObject, counting_as};

use reach_commit::joint_ops::obj_layout::vault::Vault;

/// What a run holds is held still where the area gained objects that came from the vault, or that were made and have no id yet.
pub fn gains_keep_what_a_run_holds<V: Vault>()
    ensures { (before after : V) (old new : Heap) (names : List Reference) (writing : List Source) (directory : Option ℕ) (h : Held)
        → Gains old new (V.outside before) (V.outside after) → HoldsRun old (V.outside before) names writing directory h
        → HoldsRun new (V.outside after) names writing directory h }
{}

/// A touch of a reference under which something is seen, or to nothing or to an object of the area, is such a gain.
pub fn touches_are_gains<V: Vault>()
    ensures { (before after : V) (old new : Heap) (reference : Reference) → IsHeap old → IsHeap new → MayBeTouched old (V.outside before) reference
        → IsTouch old new (V.outside before) (V.outside after) reference → Gains old new (V.outside before) (V.outside after) }
{}

/// So is the making of an object.
pub fn makings_are_gains<V: Vault>()
    ensures { (vault : V) (old new : Heap) (at : ℕ) (object : Object) → IsHeap old → IsHeap new → IsMaking old new at object → Gains old new (V.outside vault) (V.outside vault) }
{}

/// Where an object of the area that isn't stored gets the next id, what the run holds after it was made is held.
pub fn an_object_gets_the_next_id<V: Vault>()
    ensures { (vault : V) (here : Heap) (names : List Reference) (writing : List Source) (directory : Option ℕ) (h : Held) (at : ℕ) (object : Meant) → IsHeap here
        → GetsId here (V.outside vault) names h at object → HoldsRun here (V.outside vault) names writing directory h
        → HoldsRun here (V.outside vault) (and_name names (name_at here at)) writing directory (made object h) }
{}

/// An area without objects and a vault with word 0 alone hold the run that has nothing yet.
pub fn a_run_begins_with_nothing<V: Vault>()
    ensures { (vault : V) (size : ℕ) (h : Held) → (V.outside vault).contents word_0 → IsEmpty h → HoldsRun (fresh_heap size) (V.outside vault) [] [] None h }
{}

/// A field, an element or a kept name that gets a value: where area and vault stand for the heap with it, what the run holds then is held.
pub fn writes_keep_what_a_run_holds<V: Vault>()
    ensures { (vault : V) (old new : Heap) (names : List Reference) (writing : List Source) (directory : Option ℕ) (h : Held) (x : ℕ) (place : Place) (objects : meant.Heap) → IsHeap old → IsHeap new
        → WritesObject old new (V.outside vault) names h x (object_of place) objects → HoldsRun old (V.outside vault) names writing directory h
        → HoldsRun new (V.outside vault) names writing directory (assigning place objects h) }
{}

/// What code writes into a place of an object, which it notes as assigned, is such a write.
pub fn assigned_values_are_writes()
    ensures { (heap : Heap) (at index : ℕ) (v : Value) → IsHeap heap → IsHeld heap at → HasParts (header_at heap at).kind → IsBehindHome v index
        → IsWrite heap (assigned_value heap at index v) at }
{}

/// Which objects were touched, and what is counted, is nothing to what is held.
pub fn counts_are_nothing_to_what_is_held<V: Vault>()
    ensures { (vault : V) (here : Heap) (names : List Reference) (writing : List Source) (directory : Option ℕ) (h : Held) (touched : List ℕ) (counted : ℕ)
        → HoldsRun here (V.outside vault) names writing directory h → HoldsRun here (V.outside vault) names writing directory (counting_as h touched counted) }
{}

/// Runs that are the same of the heap and of databases are held alike: touched objects, what is counted, replies and weights are nothing to what is held.
pub fn runs_that_hold_alike_are_held_alike<V: Vault>()
    ensures { (vault : V) (here : Heap) (names : List Reference) (writing : List Source) (directory : Option ℕ) (h k : Held) → HoldsAlike h k
        → HoldsRun here (V.outside vault) names writing directory h → HoldsRun here (V.outside vault) names writing directory k }
{}

/// The PIDs of the area are below the words that the vault uses.
pub fn pids_are_below_the_used_words<V: Vault>()
    ensures { (vault : V) (here : Heap) (names : List Reference) (writing : List Source) (directory : Option ℕ) (h : Held)
        → HoldsRun here (V.outside vault) names writing directory h → AreBelow here (V.used_words vault) }
{}

/// A table that gets a value under a key, or loses a key: where area and vault stand for the heap with it, and nodes hang together, what the run holds then is held.
pub fn enters_keep_what_a_run_holds<V: Vault>()
    ensures { (before after : V) (old new : Heap) (names : List Reference) (writing : List Source) (directory : Option ℕ) (h : Held) (x : ℕ) (place : Place) (objects : meant.Heap) → IsHeap old → IsHeap new
        → (run : HoldsRun old (V.outside before) names writing directory h)
        → EntersTable old new (V.outside before) (V.outside after) names h run.world.row.stands.tables.nodes x (object_of place) objects
        → HoldsRun new (V.outside after) names writing directory (assigning place objects h) }
{}

/// A directory that is known stands for that of the run.
pub fn the_directory_is_known<V: Vault>()
    ensures { (vault : V) (here : Heap) (names : List Reference) (writing : List Source) (directory now : Option ℕ) (h : Held)
        → IsDirectoryAt here (seen here (V.outside vault)) (paired names) now h.directory → HoldsRun here (V.outside vault) names writing directory h
        → HoldsRun here (V.outside vault) names writing now (directory_known h) }
{}

/// A database is created: it is the last one that is open for writing, with its root.
pub fn created_databases_are_held<V: Vault>()
    ensures { (vault : V) (here : Heap) (names : List Reference) (writing : List Source) (directory now : Option ℕ) (h : Held) (d : Database) (at : ℕ)
        → CreatesDatabase here (V.outside vault) names writing now h d at → HoldsRun here (V.outside vault) names writing directory h
        → HoldsRun here (V.outside vault) names (and_source writing (suc (length h.directory)) (Some at)) now (with_database d h) }
{}

/// A database is opened: for reading, or for writing where it was open so, nothing changes in code; else it is the last one that is open for writing.
pub fn opened_databases_are_held<V: Vault>()
    ensures read { (vault : V) (here : Heap) (names : List Reference) (writing : List Source) (directory : Option ℕ) (h : Held) (number : ℕ) → h.asked ≡ true
        → HoldsRun here (V.outside vault) names writing directory h → HoldsRun here (V.outside vault) names writing directory (with_opening number Reading h) }
    ensures again { (vault : V) (here : Heap) (names : List Reference) (writing : List Source) (directory : Option ℕ) (h : Held) (number : ℕ) → h.asked ≡ true
        → IsIn number (open_for_writing h.openings) → HoldsRun here (V.outside vault) names writing directory h
        → HoldsRun here (V.outside vault) names writing directory (with_opening number Writing h) }
    ensures first { (vault : V) (here : Heap) (names : List Reference) (writing : List Source) (directory : Option ℕ) (h : Held) (number : ℕ) → h.asked ≡ true
        → (IsIn number (open_for_writing h.openings) → ⊥) → HoldsRun here (V.outside vault) names writing directory h
        → HoldsRun here (V.outside vault) names (and_source writing number None) directory (with_opening number Writing h) }
{}

/// A new table, as `table_new` of `table_lib` makes it: the run with a new table is held.
pub fn a_new_table_is_held<V: Vault>()
    ensures { (vault : V) (old new : Heap) (names : List Reference) (writing : List Source) (directory : Option ℕ) (h : Held) (at : ℕ) → IsHeap old → IsHeap new
        → IsMade old new at (blank Kind.Table 1 3 0) → HoldsRun old (V.outside vault) names writing directory h
        → HoldsRun new (V.outside vault) (and_name names (name_at new at)) writing directory (made (Keyed without_keys) h) }
{}
