ghost use Rattle.std.specs.Prelude.{◌≡◌, ◌≢◌, ◌<◌, ◌^◌, ℕ, None, Some, Ok, Err, length, IfOk, IfSome, MatchResult, IfErr};
ghost use Rattle.table_nodes.specs.heap_places.heap_texts.declared.fault.OpFault.TheVariants.{Trap as Traps};
ghost use Rattle.ps_base.specs.declared.trap.Trap.TheVariants.{Nil, WrongClass};
ghost use Rattle.table_nodes.specs.avl_trees.Trees.{Tree, items};
ghost use Rattle.table_nodes.specs.heap_places.swizzle.Heap.{IsFull, IsHeld, IsMade, Stands, blank, header_at};
ghost use Rattle.table_nodes.specs.node_rows.Keys.{Keys};
ghost use Rattle.table_nodes.specs.node_rows.Nodes.{I};
ghost use Rattle.table_nodes.specs.Steps.{place};
ghost use Rattle.table_lib.specs.Tables.{IsTable, IsUnused};
ghost use Rattle.table_lib.specs.Faults.{IsOpenFault};

use ps_base::trap::Trap;
use table_nodes::heap_places::heap_texts::fault::OpFault;
use table_nodes::heap_places::obj_layout::kind::Kind;
use table_nodes::heap_places::obj_layout::vault::Vault;
use table_nodes::heap_places::places::damaged;
use table_nodes::heap_places::swizzle::fault::SwizzleFault;
use table_nodes::heap_places::swizzle::swizzle::Swizzle;

/// Makes a table that never had a key. AreaFull exactly where there is no room for its 8 words; then the area stays.
pub fn table_new(sw: &mut Swizzle) -> Result<u32, SwizzleFault>
    ensures made { MatchResult result (λ at. IsMade sw.old sw.new at (blank Kind.Table 1 3 0)) (λ fault. IsFull sw.old sw.new 8 fault) }
    ensures unused { IfOk result (IsUnused sw.new) }
    ensures stands { Stands sw.old sw.new }
{
    sw.make(Kind::Table, 1, 3, 0)
}

/// How many pairs a table has. Nil where there is none, WrongClass where the object is no table.
pub fn cardinality<V: Vault>(sw: &Swizzle, vault: &V, table: Option<u32>) -> Result<u32, OpFault>
    requires held { IfSome table (IsHeld sw.now) }
    ensures nil { table ≡ None → result ≡ Err (Traps Nil) }
    ensures class { (at : ℕ) → table ≡ Some at → (header_at sw.now at).kind ≢ Kind.Table → result ≡ Err (Traps WrongClass) }
    ensures unused { (at : ℕ) → table ≡ Some at → IsUnused sw.now at → result ≡ Ok 0 }
    ensures fault { IfErr result (IsOpenFault sw.now table) }
    ensures counted { (at : ℕ) (ks : Keys) (t : Tree (I ks)) → table ≡ Some at → IsTable ks (place sw.now (V.outside vault.now)) at t → length (items t) < 2 ^ 32 → result ≡ Ok (length (items t)) }
{
    let _ = vault;
    let Some(at) = table else {
        return Err(OpFault::Trap(Trap::Nil));
    };
    if sw.kind(at) != Kind::Table {
        return Err(OpFault::Trap(Trap::WrongClass));
    }
    if sw.refs(at) != 1 || sw.nums(at) != 3 {
        return Err(OpFault::Swizzle(damaged(sw, at, 0, 0)));
    }
    let count = sw.num(at, 2);
    match u32::try_from(count) {
        Ok(count) => Ok(count),
        Err(_) => Err(OpFault::Swizzle(damaged(sw, at, count, 1 << 32))),
    }
}
