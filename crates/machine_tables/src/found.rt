//! What a scan does with what was found.
ghost use Rattle.std.specs.Prelude.{◌≡◌, ◌≢◌, pos, true, false, List, Some, IfSome};
ghost use Rattle.joint_tables.specs.Tables.{AreFoundInt, AreFoundText};
ghost use Rattle.joint_tables.specs.table_lib.table_nodes.Sought.{IsTextHeld};
ghost use Rattle.machine_core.specs.obj_layout.declared.reference.Reference.{Reference};
ghost use Rattle.machine_core.specs.swizzle.Heap.{IsHeld};
ghost use Rattle.machine_core.specs.ps_heap.Operators.{is_same};
ghost use Rattle.machine_core.specs.ps_heap.Scans.{most_scan_calls};
ghost use Rattle.machine_core.specs.ps_stepping.Config.{Config};
ghost use Rattle.machine_core.specs.Holding.{HeldBy, IsSound};
ghost use Rattle.machine_core.specs.Naming.{NamesObjects};
ghost use Rattle.machine_core.specs.declared.stepped.Stepped.TheVariants.{Breaks};
ghost use Rattle.machine_tables.specs.inside.Operands.{Follows};
ghost use Rattle.machine_tables.specs.inside.Scanning.{HasLocals, IsFoundInt, IsFoundText, goes_on_with, hands_over};

use crate::scan::Scan;
use machine_core::ends::trapped;
use machine_core::jumps::forward;
use machine_core::obj_layout::vault::Vault;
use machine_core::{FRAME_WORDS, Machine, Stepped};
use ps_base::trap::Trap;

/// Goes on with a string and the object under it, where the scan has one more, or else after the scan.
#[inline(always)]
pub fn with_string<V: Vault>(m: &mut Machine, scan: Scan, found: Option<(u32, u32)>) -> Stepped
    requires sound { IsSound m.old }
    requires names { NamesObjects m.old }
    requires locals { HasLocals m.old scan }
    requires held { IfSome found (λ pair. IsTextHeld m.old.objects pair.0 × IsHeld m.old.objects pair.1) }
    ensures goes_on { (v : V) → Follows (V.outside v) (V.outside v) (λ names f. AreFoundText m.old.objects (V.outside v) names found f) (goes_on_with true scan) m.old m.new result }
    ensures goes { result ≢ Breaks }
{
    match found {
        Some((key, object)) => call_with_string::<V>(m, scan, key, object),
        None => forward::<V>(m, scan.own, scan.end),
    }
}

/// Goes on with an int and the object under it, where the scan has one more, or else after the scan.
#[inline(always)]
pub fn with_int<V: Vault>(m: &mut Machine, scan: Scan, found: Option<(i32, u32)>) -> Stepped
    requires sound { IsSound m.old }
    requires names { NamesObjects m.old }
    requires locals { HasLocals m.old scan }
    requires held { IfSome found (λ pair. IsHeld m.old.objects pair.1) }
    ensures goes_on { (v : V) → Follows (V.outside v) (V.outside v) (λ names f. AreFoundInt m.old.objects (V.outside v) names found f) (goes_on_with false scan) m.old m.new result }
    ensures goes { result ≢ Breaks }
{
    match found {
        Some((key, object)) => call_with_int::<V>(m, scan, key, object),
        None => forward::<V>(m, scan.own, scan.end),
    }
}

// Hands a string and the object under it to the procedure of the scan. Trap Overflow after the greatest number of calls.
#[inline(always)]
fn call_with_string<V: Vault>(m: &mut Machine, scan: Scan, key: u32, object: u32) -> Stepped
    requires sound { IsSound m.old }
    requires names { NamesObjects m.old }
    requires locals { HasLocals m.old scan }
    requires key { IsTextHeld m.old.objects key }
    requires object { IsHeld m.old.objects object }
    ensures goes_on { (v : V) → Follows (V.outside v) (V.outside v) (IsFoundText m.old.objects (V.outside v) key object) (λ found. goes_on_with true scan (Some found)) m.old m.new result }
    ensures goes { result ≢ Breaks }
{
    if is_full::<V>(m, scan) {
        return trapped::<V>(m, Trap::Overflow, scan.line);
    }
    hand_string::<V>(m, scan, key, object)
}

// Hands an int and the object under it to the procedure of the scan. Trap Overflow after the greatest number of calls.
#[inline(always)]
fn call_with_int<V: Vault>(m: &mut Machine, scan: Scan, key: i32, object: u32) -> Stepped
    requires sound { IsSound m.old }
    requires names { NamesObjects m.old }
    requires locals { HasLocals m.old scan }
    requires object { IsHeld m.old.objects object }
    ensures goes_on { (v : V) → Follows (V.outside v) (V.outside v) (IsFoundInt m.old.objects (V.outside v) key object) (λ found. goes_on_with false scan (Some found)) m.old m.new result }
    ensures goes { result ≢ Breaks }
{
    if is_full::<V>(m, scan) {
        return trapped::<V>(m, Trap::Overflow, scan.line);
    }
    hand_int::<V>(m, scan, key, object)
}

// Whether the scan has made the greatest number of calls.
#[inline(always)]
fn is_full<V: Vault>(m: &Machine, scan: Scan) -> bool
    requires sound { IsSound m.now }
    requires locals { HasLocals m.now scan }
    ensures { (v : V) (names : List Reference) (c : Config) → HeldBy (V.outside v) names m.now c
        → is_same (c.locals.nums scan.nums) (pos most_scan_calls) ≡ result }
{
    m.nums.word(scan.nums as usize) == i32::MAX
}

// Pushes the procedure, the string, which is the last key then, and the object; damaged where there is no room for them.
fn hand_string<V: Vault>(m: &mut Machine, scan: Scan, key: u32, object: u32) -> Stepped
    requires sound { IsSound m.old }
    requires names { NamesObjects m.old }
    requires locals { HasLocals m.old scan }
    requires key { IsTextHeld m.old.objects key }
    requires object { IsHeld m.old.objects object }
    ensures hands { (v : V) → Follows (V.outside v) (V.outside v) (IsFoundText m.old.objects (V.outside v) key object) (hands_over true scan) m.old m.new result }
    ensures goes { result ≢ Breaks }
{
    if m.refs.len() + 3 > FRAME_WORDS {
        return Stepped::Damaged;
    }
    let refs = scan.refs as usize;
    let procedure = m.refs.word(refs + 1);
    m.objects.sound();
    m.refs.set(refs + 2, key);
    m.nums.set(scan.nums as usize + 2, 1);
    m.refs.push_reserved(procedure);
    m.refs.push_reserved(key);
    m.refs.push_reserved(object);
    Stepped::Quiet
}

// Pushes the procedure, the int, which is the last key then, and the object; damaged where there is no room for them.
fn hand_int<V: Vault>(m: &mut Machine, scan: Scan, key: i32, object: u32) -> Stepped
    requires sound { IsSound m.old }
    requires names { NamesObjects m.old }
    requires locals { HasLocals m.old scan }
    requires object { IsHeld m.old.objects object }
    ensures hands { (v : V) → Follows (V.outside v) (V.outside v) (IsFoundInt m.old.objects (V.outside v) key object) (hands_over false scan) m.old m.new result }
    ensures goes { result ≢ Breaks }
{
    if m.refs.len() + 2 > FRAME_WORDS {
        return Stepped::Damaged;
    }
    if m.nums.len() >= FRAME_WORDS {
        return Stepped::Damaged;
    }
    let nums = scan.nums as usize;
    let procedure = m.refs.word(scan.refs as usize + 1);
    m.objects.sound();
    m.nums.set(nums + 1, key);
    m.nums.set(nums + 2, 1);
    m.refs.push_reserved(procedure);
    m.nums.push_reserved(key);
    m.refs.push_reserved(object);
    Stepped::Quiet
}
