//! Scans of tables. A scan is damaged where its locals aren't those of the frame, or what stands for the table is neither nil nor a structure nor a table.
//! Trap Nil for nil, WrongClass for a structure, KeyKind for a table whose keys are of the other kind. What isn't in the area is fetched; where it can't be,
//! the scan breaks off.
ghost use Rattle.std.specs.Prelude.{◌≡◌, ◌≢◌, ◌<◌, ◌^◌, true, false, List, IfSome};
ghost use Rattle.joint_tables.specs.table_lib.table_nodes.Sought.{IsTextHeld};
ghost use Rattle.machine_core.specs.obj_layout.declared.reference.Reference.{Reference};
ghost use Rattle.machine_core.specs.obj_layout.Storing.{SameNumbers};
ghost use Rattle.machine_core.specs.swizzle.Heap.{IsHeld};
ghost use Rattle.machine_core.specs.swizzle.Reading.{LeavesOutside};
ghost use Rattle.machine_core.specs.ps_heap.Operators.{is_int};
ghost use Rattle.machine_core.specs.ps_stepping.Config.{Config};
ghost use Rattle.machine_core.specs.ps_stepping.Scans.{one_more as one_more_of, scan_more as scan_more_of, scan_on};
ghost use Rattle.machine_core.specs.Failing.{FailsAsReading};
ghost use Rattle.machine_core.specs.Holding.{HeldBy, IsSound};
ghost use Rattle.machine_core.specs.Naming.{NamesObjects};
ghost use Rattle.machine_core.specs.declared.stepped.Stepped.TheVariants.{Breaks};
ghost use Rattle.machine_core.specs.Stepped.{Takes, UnlessBroken};
ghost use Rattle.machine_tables.specs.inside.Operands.{Follows, IsTable};
ghost use Rattle.machine_tables.specs.inside.Scanning.{AreTableAndInt, AreTableAndText, HasLocals, ReadsTable, after_empty, call_counted, goes_after_key};

use crate::found::{with_int, with_string};
use crate::last::{LastString, last_int, last_string};
use crate::scan::Scan;
use machine_core::ends::trapped;
use machine_core::joint_ops::OpFault;
use machine_core::joint_ops::values::Sort;
use machine_core::jumps::{back, is_one, quiet};
use machine_core::obj_layout::vault::Vault;
use machine_core::stacks::{object, pop_num, set_num_at};
use machine_core::{Machine, Stepped};
use machine_operands::gives::broke;

/// Goes on with the next string of a table.
#[inline]
pub fn scan_strings<V: Vault>(m: &mut Machine, vault: &mut V, scan: Scan) -> Stepped
    requires sound { IsSound m.old }
    requires names { NamesObjects m.old }
    requires alive { V.alive vault.old }
    ensures takes { Takes (V.outside vault.old) (V.outside vault.new) (scan_on true scan.own scan.refs scan.nums scan.end scan.line) m.old m.new result }
    ensures fails { FailsAsReading (V.outside vault.old) (V.outside vault.new) result m.new }
    ensures leaves { LeavesOutside (V.outside vault.old) (V.outside vault.new) }
    ensures numbers { SameNumbers V.used_words V.directory_at V.most_words V.access vault.old vault.new }
    ensures alive { UnlessBroken result (V.alive vault.new) }
{
    let Some(table) = scanned_table::<V>(m, scan) else {
        return Stepped::Damaged;
    };
    match last_string::<V>(m, scan) {
        LastString::None => next_string(m, vault, scan, table, None),
        LastString::Text(at) => next_string(m, vault, scan, table, Some(at)),
        LastString::Empty => string_after_empty(m, vault, scan, table),
    }
}

/// Goes on with the next int of a table.
#[inline]
pub fn scan_ints<V: Vault>(m: &mut Machine, vault: &mut V, scan: Scan) -> Stepped
    requires sound { IsSound m.old }
    requires names { NamesObjects m.old }
    requires alive { V.alive vault.old }
    ensures takes { Takes (V.outside vault.old) (V.outside vault.new) (scan_on false scan.own scan.refs scan.nums scan.end scan.line) m.old m.new result }
    ensures fails { FailsAsReading (V.outside vault.old) (V.outside vault.new) result m.new }
    ensures leaves { LeavesOutside (V.outside vault.old) (V.outside vault.new) }
    ensures numbers { SameNumbers V.used_words V.directory_at V.most_words V.access vault.old vault.new }
    ensures alive { UnlessBroken result (V.alive vault.new) }
{
    let Some(table) = scanned_table::<V>(m, scan) else {
        return Stepped::Damaged;
    };
    let after = last_int::<V>(m, scan);
    next_int(m, vault, scan, table, after)
}

/// Pops what the procedure answered, and counts its call; for true it goes back to the scan, and takes a turn.
#[inline]
pub fn scan_more<V: Vault>(m: &mut Machine, own: u32, slot: usize, to: u32) -> Stepped
    requires sound { IsSound m.old }
    requires small { slot < 2 ^ 32 }
    ensures takes { (v : V) → Takes (V.outside v) (V.outside v) (scan_more_of own slot to) m.old m.new result }
    ensures goes { result ≢ Breaks }
{
    let Some(more) = pop_num::<V>(m) else {
        return Stepped::Damaged;
    };
    count_call::<V>(m, own, slot, to, more)
}

// The table of a scan, where its locals are those of the frame.
fn scanned_table<V: Vault>(m: &Machine, scan: Scan) -> Option<Option<u32>>
    requires sound { IsSound m.now }
    requires names { NamesObjects m.now }
    ensures locals { IfSome result (λ table. HasLocals m.now scan) }
    ensures held { IfSome result (λ table. IfSome table (IsHeld m.now.objects)) }
    ensures reads { (v : V) (names : List Reference) (c : Config) → HeldBy (V.outside v) names m.now c → ReadsTable (V.outside v) m.now scan names c result }
{
    if scan.refs as usize + 2 >= m.frame.refs as usize
        || scan.nums as usize + 2 >= m.frame.nums as usize
    {
        return None;
    }
    let table = object(m.refs.word(scan.refs as usize));
    m.objects.sound();
    match m.objects.sort_of::<V>(table) {
        Sort::Nil => Some(None),
        Sort::Pointer => Some(table),
        _ => None,
    }
}

// Goes on with the least string above one, or the least of all.
#[inline(never)]
fn next_string<V: Vault>(
    m: &mut Machine,
    vault: &mut V,
    scan: Scan,
    table: Option<u32>,
    after: Option<u32>,
) -> Stepped
    requires sound { IsSound m.old }
    requires names { NamesObjects m.old }
    requires alive { V.alive vault.old }
    requires locals { HasLocals m.old scan }
    requires table { IfSome table (IsHeld m.old.objects) }
    requires after { IfSome after (IsTextHeld m.old.objects) }
    ensures follows { Follows (V.outside vault.old) (V.outside vault.new) (AreTableAndText m.old.objects (V.outside vault.old) table after) (goes_after_key true scan) m.old m.new result }
    ensures fails { FailsAsReading (V.outside vault.old) (V.outside vault.new) result m.new }
    ensures leaves { LeavesOutside (V.outside vault.old) (V.outside vault.new) }
    ensures numbers { SameNumbers V.used_words V.directory_at V.most_words V.access vault.old vault.new }
    ensures alive { UnlessBroken result (V.alive vault.new) }
{
    let next = m.objects.next_text(vault, after, table);
    match next {
        Ok(found) => with_string::<V>(m, scan, found),
        Err(OpFault::Trap(trap)) => trapped::<V>(m, trap, scan.line),
        Err(OpFault::Swizzle(fault)) => broke::<V>(m, fault),
    }
}

// Goes on with the least string above the empty one: the least of all, or where that is the empty one, the least above it.
#[inline(never)]
fn string_after_empty<V: Vault>(
    m: &mut Machine,
    vault: &mut V,
    scan: Scan,
    table: Option<u32>,
) -> Stepped
    requires sound { IsSound m.old }
    requires names { NamesObjects m.old }
    requires alive { V.alive vault.old }
    requires locals { HasLocals m.old scan }
    requires table { IfSome table (IsHeld m.old.objects) }
    ensures follows { Follows (V.outside vault.old) (V.outside vault.new) (IsTable m.old.objects (V.outside vault.old) table) (after_empty scan) m.old m.new result }
    ensures fails { FailsAsReading (V.outside vault.old) (V.outside vault.new) result m.new }
    ensures leaves { LeavesOutside (V.outside vault.old) (V.outside vault.new) }
    ensures numbers { SameNumbers V.used_words V.directory_at V.most_words V.access vault.old vault.new }
    ensures alive { UnlessBroken result (V.alive vault.new) }
{
    let least = m.objects.next_text(vault, None, table);
    match least {
        Ok(Some((key, object))) => {
            if m.objects.text_length::<V>(key) == 0 {
                next_string(m, vault, scan, table, Some(key))
            } else {
                with_string::<V>(m, scan, Some((key, object)))
            }
        }
        Ok(None) => with_string::<V>(m, scan, None),
        Err(OpFault::Trap(trap)) => trapped::<V>(m, trap, scan.line),
        Err(OpFault::Swizzle(fault)) => broke::<V>(m, fault),
    }
}

// Goes on with the least int above one, or the least of all.
#[inline(never)]
fn next_int<V: Vault>(
    m: &mut Machine,
    vault: &mut V,
    scan: Scan,
    table: Option<u32>,
    after: Option<i32>,
) -> Stepped
    requires sound { IsSound m.old }
    requires names { NamesObjects m.old }
    requires alive { V.alive vault.old }
    requires locals { HasLocals m.old scan }
    requires table { IfSome table (IsHeld m.old.objects) }
    requires after { IfSome after (λ key. is_int key ≡ true) }
    ensures follows { Follows (V.outside vault.old) (V.outside vault.new) (AreTableAndInt m.old.objects (V.outside vault.old) table after) (goes_after_key false scan) m.old m.new result }
    ensures fails { FailsAsReading (V.outside vault.old) (V.outside vault.new) result m.new }
    ensures leaves { LeavesOutside (V.outside vault.old) (V.outside vault.new) }
    ensures numbers { SameNumbers V.used_words V.directory_at V.most_words V.access vault.old vault.new }
    ensures alive { UnlessBroken result (V.alive vault.new) }
{
    let next = m.objects.next_int(vault, after, table);
    match next {
        Ok(found) => with_int::<V>(m, scan, found),
        Err(OpFault::Trap(trap)) => trapped::<V>(m, trap, scan.line),
        Err(OpFault::Swizzle(fault)) => broke::<V>(m, fault),
    }
}

// Counts a call of the procedure, and goes back to the scan for true.
#[inline(always)]
fn count_call<V: Vault>(m: &mut Machine, own: u32, slot: usize, to: u32, more: i32) -> Stepped
    requires sound { IsSound m.old }
    requires small { slot < 2 ^ 32 }
    ensures takes { (v : V) → Takes (V.outside v) (V.outside v) (call_counted own slot to more) m.old m.new result }
    ensures goes { result ≢ Breaks }
{
    if slot + 2 >= m.frame.nums as usize {
        return Stepped::Damaged;
    }
    let count = m.nums.word(slot);
    set_num_at::<V>(m, slot, one_more(count));
    if is_one(more) {
        return back::<V>(m, own, to);
    }
    quiet::<V>(m)
}

// A number of 32 bits with one more.
#[inline(always)]
fn one_more(count: i32) -> i32
    ensures { result ≡ one_more_of count }
{
    count.wrapping_add(1)
}
