//! The last key of a scan.
ghost use Rattle.std.specs.Prelude.{◌≡◌, ◌<◌, List, IfSome, true, false};
ghost use Rattle.joint_tables.specs.Tables.{last_int_key};
ghost use Rattle.joint_tables.specs.table_lib.table_nodes.Sought.{IsTextHeld};
ghost use Rattle.machine_core.specs.ps_heap.Operators.{is_int};
ghost use Rattle.machine_core.specs.obj_layout.declared.reference.Reference.{Reference};
ghost use Rattle.machine_core.specs.ps_stepping.Config.{Config};
ghost use Rattle.machine_core.specs.ps_stepping.Scans.{last_of};
ghost use Rattle.machine_core.specs.Holding.{HeldBy, IsSound};
ghost use Rattle.machine_core.specs.Naming.{NamesObjects};
ghost use Rattle.machine_tables.specs.inside.Scanning.{HasLocals, HasText, IsHeldLast, IsLastString};

use crate::scan::Scan;
use machine_core::Machine;
use machine_core::joint_ops::values::Sort;
use machine_core::jumps::is_one;
use machine_core::obj_layout::vault::Vault;
use machine_core::stacks::object;

/// The last key of a scan of strings: none yet; a text of the area; or what is no text, for which the empty string stands.
#[derive(Clone, Copy)]
pub enum LastString {
    None,
    Text(u32),
    Empty,
}

/// The last key of a scan of strings.
pub fn last_string<V: Vault>(m: &Machine, scan: Scan) -> LastString
    requires sound { IsSound m.now }
    requires names { NamesObjects m.now }
    requires locals { HasLocals m.now scan }
    ensures held { IsHeldLast m.now.objects result }
    ensures is { (v : V) (names : List Reference) (c : Config) → HeldBy (V.outside v) names m.now c
        → IsLastString m.now.objects (V.outside v) names result (last_of true scan.refs scan.nums c) }
{
    let is_there = m.nums.word(scan.nums as usize + 2);
    if !is_one(is_there) {
        return LastString::None;
    }
    match text_in::<V>(m, scan.refs as usize + 2) {
        Some(at) => LastString::Text(at),
        None => LastString::Empty,
    }
}

// The text that a local of references holds, where it holds one.
fn text_in<V: Vault>(m: &Machine, slot: usize) -> Option<u32>
    requires sound { IsSound m.now }
    requires names { NamesObjects m.now }
    requires slot { slot < m.now.frame.refs }
    ensures held { IfSome result (IsTextHeld m.now.objects) }
    ensures is { (v : V) (names : List Reference) (c : Config) → HeldBy (V.outside v) names m.now c → HasText (V.outside v) m.now names (c.locals.refs slot) result }
{
    let last = object(m.refs.word(slot));
    m.objects.sound();
    match m.objects.sort_of::<V>(last) {
        Sort::Text => last,
        _ => None,
    }
}

/// The last key of a scan of ints, or none.
pub fn last_int<V: Vault>(m: &Machine, scan: Scan) -> Option<i32>
    requires sound { IsSound m.now }
    requires locals { HasLocals m.now scan }
    ensures range { IfSome result (λ key. is_int key ≡ true) }
    ensures is { (v : V) (names : List Reference) (c : Config) → HeldBy (V.outside v) names m.now c → last_int_key result ≡ last_of false scan.refs scan.nums c }
{
    let is_there = m.nums.word(scan.nums as usize + 2);
    if !is_one(is_there) {
        return None;
    }
    Some(m.nums.word(scan.nums as usize + 1))
}
