//! Laws of tables.
ghost use Rattle.std.specs.Prelude.{◌≡◌, ◌≢◌, ℕ};
ghost use Rattle.table_nodes.specs.heap_places.obj_layout.declared.reference.Reference.{Reference};
ghost use Rattle.table_nodes.specs.heap_places.swizzle.Heap.{Heap};
ghost use Rattle.table_nodes.specs.avl_trees.Trees.{Tree, items};
ghost use Rattle.table_nodes.specs.node_rows.Keys.{Keys, KeyOf};
ghost use Rattle.table_nodes.specs.node_rows.Nodes.{I};
ghost use Rattle.table_nodes.specs.Steps.{IsPlace, place};
ghost use Rattle.table_lib.specs.Entries.{AreApart, EntersPair, SparesBut, TakesKey};
ghost use Rattle.table_lib.specs.Tables.{HasPairs, IsTable};

use table_nodes::heap_places::obj_layout::vault::Vault;

/// Another table, no node of which is one of the table that a call was on, has the same tree after it, and still no node in common with that table.
pub fn other_tables_stay<V: Vault>()
    ensures entered { (ks other : Keys) (old new : Heap) (before after : V) (at b : ℕ) (t : Tree (I ks)) (v : Tree (I other)) (key : KeyOf ks) (value : Reference) → IsPlace (place old (V.outside before)) →
        HasPairs ks (place old (V.outside before)) at t → SparesBut at old new (V.outside before) (V.outside after) → b ≢ at → IsTable other (place old (V.outside before)) b v → AreApart other ks (items v) (items t) →
        (w : EntersPair ks (place old (V.outside before)) (place new (V.outside after)) at (items t) key value) → IsTable other (place new (V.outside after)) b v × AreApart other ks (items v) (items w.tree) }
    ensures taken { (ks other : Keys) (old new : Heap) (before after : V) (at b : ℕ) (t : Tree (I ks)) (v : Tree (I other)) (key : KeyOf ks) → IsPlace (place old (V.outside before)) →
        HasPairs ks (place old (V.outside before)) at t → SparesBut at old new (V.outside before) (V.outside after) → b ≢ at → IsTable other (place old (V.outside before)) b v → AreApart other ks (items v) (items t) →
        (w : TakesKey ks (place old (V.outside before)) (place new (V.outside after)) at (items t) key) → IsTable other (place new (V.outside after)) b v × AreApart other ks (items v) (items w.tree) }
{}
