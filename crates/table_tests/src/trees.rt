//! The trees of tables, node by node.
ghost use Rattle.std.specs.Prelude.{◌≡◌, true, IfSome, OnOk};
ghost use Rattle.table_lib.specs.heap_places.swizzle.Heap.{IsHeld};
ghost use Rattle.table_lib.specs.heap_places.swizzle.Touch.{Keeps};
ghost use Rattle.table_lib.specs.table_nodes.Nodes.{IsNode};

use crate::scene::{Refused, fetch};
use memory_vault::memory::MemoryVault;
use table_lib::table_nodes::heap_places::heap_texts::fault::OpFault;
use table_lib::table_nodes::heap_places::obj_layout::kind::Kind;
use table_lib::table_nodes::heap_places::swizzle::swizzle::Swizzle;
use table_lib::table_nodes::nodes::{is_node, side};

/// How high the tree of a table is, where it is balanced and each node has its right height.
pub fn height_of_table(
    vault: &mut MemoryVault,
    sw: &mut Swizzle,
    table: u64,
) -> Result<Option<u64>, Refused> {
    let table = match fetch(vault, sw, table) {
        Ok(table) => table,
        Err(refused) => return Err(refused),
    };
    if sw.kind(table) != Kind::Table || sw.refs(table) == 0 {
        return Ok(None);
    }
    match sw.touch_slot(vault, table, 0) {
        Ok(Some(root)) => height_from(vault, sw, root),
        Ok(None) => Ok(Some(0)),
        Err(fault) => Err(Refused::Fault(OpFault::Swizzle(fault))),
    }
}

fn height_from(vault: &mut MemoryVault, sw: &mut Swizzle, root: u32) -> Result<Option<u64>, Refused>
    requires alive { vault.old.alive ≡ true }
    requires held { IsHeld sw.old root }
{
    if is_node(sw, root) {
        height_of(vault, sw, Some(root), 200)
    } else {
        Ok(None)
    }
}

// How high the tree of a node is, at most so high.
fn height_of(
    vault: &mut MemoryVault,
    sw: &mut Swizzle,
    root: Option<u32>,
    most: u32,
) -> Result<Option<u64>, Refused>
    requires alive { vault.old.alive ≡ true }
    requires node { IfSome root (IsNode sw.old) }
    ensures alive { OnOk result (vault.new.alive ≡ true) }
    ensures keeps { OnOk result (Keeps sw.old sw.new) }
{
    let Some(at) = root else {
        return Ok(Some(0));
    };
    if most == 0 {
        return Ok(None);
    }
    let before = match side(sw, vault, at, 0) {
        Ok(before) => before,
        Err(fault) => return Err(Refused::Fault(OpFault::Swizzle(fault))),
    };
    let after = match side(sw, vault, at, 1) {
        Ok(after) => after,
        Err(fault) => return Err(Refused::Fault(OpFault::Swizzle(fault))),
    };
    let left = match height_of(vault, sw, before, most - 1) {
        Ok(left) => left,
        Err(refused) => return Err(refused),
    };
    let right = match height_of(vault, sw, after, most - 1) {
        Ok(right) => right,
        Err(refused) => return Err(refused),
    };
    Ok(height_between(sw.num(at, 2), left, right))
}

// The height of a node, if it is that of its sides and these differ by at most one.
fn height_between(height: u64, left: Option<u64>, right: Option<u64>) -> Option<u64> {
    let (left, right) = (left?, right?);
    if left.abs_diff(right) < 2 && height == left.max(right).saturating_add(1) {
        Some(height)
    } else {
        None
    }
}
