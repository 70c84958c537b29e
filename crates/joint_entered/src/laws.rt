//! Laws of tables that a key was entered into.
ghost use Rattle.std.specs.Prelude.{◌≡◌, ℕ, List, Option};
ghost use Rattle.joint_held.specs.joint_ops.obj_layout.declared.reference.Reference.{Reference};
ghost use Rattle.joint_held.specs.joint_ops.swizzle.Heap.{Heap, IsHeap};
ghost use Rattle.joint_held.specs.joint_ops.ps_heap.Objects as meant;
ghost use Rattle.joint_held.specs.joint_ops.ps_heap.Held.{Held};
ghost use Rattle.joint_held.specs.joint_ops.ps_heap.Tables.{Key};
ghost use Rattle.joint_held.specs.joint_ops.ps_heap.Values.{Pointer, Value};
ghost use Rattle.joint_held.specs.reach_commit.commit_walk.declared.homes.Source.{Source};
ghost use Rattle.joint_held.specs.Held.{HoldsRun};
ghost use Rattle.joint_held.specs.Entering.{EntersTable};
ghost use Rattle.joint_tables.specs.table_lib.table_nodes.node_rows.Keys.{Keys, KeyOf};
ghost use Rattle.joint_entered.specs.Entered.{HasAnswered, HasEntered};

use joint_held::reach_commit::joint_ops::obj_layout::vault::Vault;

/// A key that was entered into a table, or taken out, changes the table as the law `enters_keep_what_a_run_holds` of `joint_held` asks: nodes hang together
/// still, and what is new in the area came from the vault or was made.
pub fn entered_tables_are_held<V: Vault>()
    ensures { (ks : Keys) (before after : V) (old new : Heap) (names : List Reference) (writing : List Source) (directory : Option ℕ) (h : Held) (x id : ℕ) (key : KeyOf ks) (to : Option ℕ) (objects : meant.Heap)
        → IsHeap old → IsHeap new → (run : HoldsRun old (V.outside before) names writing directory h)
        → HasEntered ks old new (V.outside before) (V.outside after) names h x id key to objects
        → EntersTable old new (V.outside before) (V.outside after) names h run.world.row.stands.tables.nodes x id objects }
{}

/// An enter of `joint_tables` that is answered is of a table with an id, and changes that table so.
pub fn answered_enters_are_held<V: Vault>()
    ensures { (ks : Keys) (before after : V) (old new : Heap) (names : List Reference) (writing : List Source) (directory : Option ℕ) (h : Held) (x : ℕ) (table : Value) (named : Key) (v : Value) (key : KeyOf ks) (to : Option ℕ) (objects : meant.Heap)
        → IsHeap old → IsHeap new → (run : HoldsRun old (V.outside before) names writing directory h)
        → HasAnswered ks old new (V.outside before) (V.outside after) names h x table named v key to objects
        → (id : ℕ) × (table ≡ Pointer id) × EntersTable old new (V.outside before) (V.outside after) names h run.world.row.stands.tables.nodes x id objects }
{}
