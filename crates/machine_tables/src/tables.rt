//! Calls of the library over tables. Where there isn't what a call wants on the stacks, the code is damaged. Trap Nil where nil stands in the place of the
//! table, WrongClass where it is no table, KeyKind where its keys are of the other kind. What isn't in the area is fetched; where it can't be, or there is no
//! room for what is made, the call breaks off.
ghost use Rattle.std.specs.Prelude.{IfSome};
ghost use Rattle.joint_tables.specs.table_lib.table_nodes.Sought.{IsTextHeld};
ghost use Rattle.machine_core.specs.obj_layout.Storing.{SameNumbers};
ghost use Rattle.machine_core.specs.swizzle.Heap.{IsHeld};
ghost use Rattle.machine_core.specs.swizzle.Reading.{LeavesOutside};
ghost use Rattle.machine_core.specs.ps_heap.Library.{MakeTable, EnterString, LookUpString, EnterInt, LookUpInt, Cardinality};
ghost use Rattle.machine_core.specs.ps_stepping.Library.{call_on_heap};
ghost use Rattle.machine_core.specs.Failing.{FailsAsReading};
ghost use Rattle.machine_core.specs.Holding.{IsSound};
ghost use Rattle.machine_core.specs.Naming.{NamesObjects};
ghost use Rattle.machine_core.specs.Stepped.{Takes, UnlessBroken};
ghost use Rattle.machine_tables.specs.inside.Operands.{AreStringAndTable, AreStringTableEntry, AreTableAndEntry, Follows, IsTable, int_entered, int_looked_up, string_entered, string_looked_up};

use crate::ends::{end_enter, give_count, give_found};
use machine_core::obj_layout::vault::Vault;
use machine_core::{Machine, Stepped};
use machine_operands::gives::give_object;
use machine_operands::pops::{pop_int, pop_object, pop_text};
use ps_base::line::Line;

/// Pushes a new table, which has no kind of key.
#[inline]
pub fn make_table<V: Vault>(m: &mut Machine, vault: &V, line: Line) -> Stepped
    requires sound { IsSound m.old }
    requires names { NamesObjects m.old }
    ensures takes { Takes (V.outside vault.now) (V.outside vault.now) (call_on_heap MakeTable line) m.old m.new result }
    ensures fails { FailsAsReading (V.outside vault.now) (V.outside vault.now) result m.new }
{
    let made = m.objects.make_table(vault);
    give_object::<V>(m, made, line)
}

/// Pops a table and a string, and pushes the object under the string, or nil where there is none.
#[inline]
pub fn look_up_string<V: Vault>(m: &mut Machine, vault: &mut V, line: Line) -> Stepped
    requires sound { IsSound m.old }
    requires names { NamesObjects m.old }
    requires alive { V.alive vault.old }
    ensures takes { Takes (V.outside vault.old) (V.outside vault.new) (call_on_heap LookUpString line) m.old m.new result }
    ensures fails { FailsAsReading (V.outside vault.old) (V.outside vault.new) result m.new }
    ensures leaves { LeavesOutside (V.outside vault.old) (V.outside vault.new) }
    ensures numbers { SameNumbers V.used_words V.directory_at V.most_words V.access vault.old vault.new }
    ensures alive { UnlessBroken result (V.alive vault.new) }
{
    let Some(table) = pop_object::<V>(m) else {
        return Stepped::Damaged;
    };
    let Some(key) = pop_text::<V>(m) else {
        return Stepped::Damaged;
    };
    find_string(m, vault, key, table, line)
}

// Pushes what a table has under a string.
#[inline(never)]
fn find_string<V: Vault>(
    m: &mut Machine,
    vault: &mut V,
    key: u32,
    table: Option<u32>,
    line: Line,
) -> Stepped
    requires sound { IsSound m.old }
    requires names { NamesObjects m.old }
    requires alive { V.alive vault.old }
    requires key { IsTextHeld m.old.objects key }
    requires table { IfSome table (IsHeld m.old.objects) }
    ensures finds { Follows (V.outside vault.old) (V.outside vault.new) (AreStringAndTable m.old.objects (V.outside vault.old) key table) (string_looked_up line) m.old m.new result }
    ensures fails { FailsAsReading (V.outside vault.old) (V.outside vault.new) result m.new }
    ensures leaves { LeavesOutside (V.outside vault.old) (V.outside vault.new) }
    ensures numbers { SameNumbers V.used_words V.directory_at V.most_words V.access vault.old vault.new }
    ensures alive { UnlessBroken result (V.alive vault.new) }
{
    let got = m.objects.lookup_text(vault, key, table);
    give_found::<V>(m, got, line)
}

/// Pops a table and an int, and pushes the object under the int, or nil where there is none.
#[inline]
pub fn look_up_int<V: Vault>(m: &mut Machine, vault: &mut V, line: Line) -> Stepped
    requires sound { IsSound m.old }
    requires names { NamesObjects m.old }
    requires alive { V.alive vault.old }
    ensures takes { Takes (V.outside vault.old) (V.outside vault.new) (call_on_heap LookUpInt line) m.old m.new result }
    ensures fails { FailsAsReading (V.outside vault.old) (V.outside vault.new) result m.new }
    ensures leaves { LeavesOutside (V.outside vault.old) (V.outside vault.new) }
    ensures numbers { SameNumbers V.used_words V.directory_at V.most_words V.access vault.old vault.new }
    ensures alive { UnlessBroken result (V.alive vault.new) }
{
    let Some(table) = pop_object::<V>(m) else {
        return Stepped::Damaged;
    };
    let Some(key) = pop_int::<V>(m) else {
        return Stepped::Damaged;
    };
    find_int(m, vault, key, table, line)
}

// Pushes what a table has under an int.
#[inline(never)]
fn find_int<V: Vault>(
    m: &mut Machine,
    vault: &mut V,
    key: i32,
    table: Option<u32>,
    line: Line,
) -> Stepped
    requires sound { IsSound m.old }
    requires names { NamesObjects m.old }
    requires alive { V.alive vault.old }
    requires table { IfSome table (IsHeld m.old.objects) }
    ensures finds { Follows (V.outside vault.old) (V.outside vault.new) (IsTable m.old.objects (V.outside vault.old) table) (int_looked_up line key) m.old m.new result }
    ensures fails { FailsAsReading (V.outside vault.old) (V.outside vault.new) result m.new }
    ensures leaves { LeavesOutside (V.outside vault.old) (V.outside vault.new) }
    ensures numbers { SameNumbers V.used_words V.directory_at V.most_words V.access vault.old vault.new }
    ensures alive { UnlessBroken result (V.alive vault.new) }
{
    let got = m.objects.lookup_int(vault, key, table);
    give_found::<V>(m, got, line)
}

/// Pops what is to be entered, nil or a structure or a table, and a table and a string, and enters it under the string, or takes the string out for nil.
#[inline]
pub fn enter_string<V: Vault>(m: &mut Machine, vault: &mut V, line: Line) -> Stepped
    requires sound { IsSound m.old }
    requires names { NamesObjects m.old }
    requires alive { V.alive vault.old }
    ensures takes { Takes (V.outside vault.old) (V.outside vault.new) (call_on_heap EnterString line) m.old m.new result }
    ensures fails { FailsAsReading (V.outside vault.old) (V.outside vault.new) result m.new }
    ensures leaves { LeavesOutside (V.outside vault.old) (V.outside vault.new) }
    ensures numbers { SameNumbers V.used_words V.directory_at V.most_words V.access vault.old vault.new }
    ensures alive { UnlessBroken result (V.alive vault.new) }
{
    let Some(to) = pop_object::<V>(m) else {
        return Stepped::Damaged;
    };
    let Some(table) = pop_object::<V>(m) else {
        return Stepped::Damaged;
    };
    let Some(key) = pop_text::<V>(m) else {
        return Stepped::Damaged;
    };
    put_string(m, vault, key, table, to, line)
}

// Enters an object, or nil, under a string of a table.
#[inline(never)]
fn put_string<V: Vault>(
    m: &mut Machine,
    vault: &mut V,
    key: u32,
    table: Option<u32>,
    to: Option<u32>,
    line: Line,
) -> Stepped
    requires sound { IsSound m.old }
    requires names { NamesObjects m.old }
    requires alive { V.alive vault.old }
    requires key { IsTextHeld m.old.objects key }
    requires table { IfSome table (IsHeld m.old.objects) }
    requires to { IfSome to (IsHeld m.old.objects) }
    ensures puts { Follows (V.outside vault.old) (V.outside vault.new) (AreStringTableEntry m.old.objects (V.outside vault.old) key table to) (string_entered line) m.old m.new result }
    ensures fails { FailsAsReading (V.outside vault.old) (V.outside vault.new) result m.new }
    ensures leaves { LeavesOutside (V.outside vault.old) (V.outside vault.new) }
    ensures numbers { SameNumbers V.used_words V.directory_at V.most_words V.access vault.old vault.new }
    ensures alive { UnlessBroken result (V.alive vault.new) }
{
    let done = m.objects.enter_text(vault, key, table, to);
    end_enter::<V>(m, done, line)
}

/// Pops what is to be entered, nil or a structure or a table, and a table and an int, and enters it under the int, or takes the int out for nil.
#[inline]
pub fn enter_int<V: Vault>(m: &mut Machine, vault: &mut V, line: Line) -> Stepped
    requires sound { IsSound m.old }
    requires names { NamesObjects m.old }
    requires alive { V.alive vault.old }
    ensures takes { Takes (V.outside vault.old) (V.outside vault.new) (call_on_heap EnterInt line) m.old m.new result }
    ensures fails { FailsAsReading (V.outside vault.old) (V.outside vault.new) result m.new }
    ensures leaves { LeavesOutside (V.outside vault.old) (V.outside vault.new) }
    ensures numbers { SameNumbers V.used_words V.directory_at V.most_words V.access vault.old vault.new }
    ensures alive { UnlessBroken result (V.alive vault.new) }
{
    let Some(to) = pop_object::<V>(m) else {
        return Stepped::Damaged;
    };
    let Some(table) = pop_object::<V>(m) else {
        return Stepped::Damaged;
    };
    let Some(key) = pop_int::<V>(m) else {
        return Stepped::Damaged;
    };
    put_int(m, vault, key, table, to, line)
}

// Enters an object, or nil, under an int of a table.
#[inline(never)]
fn put_int<V: Vault>(
    m: &mut Machine,
    vault: &mut V,
    key: i32,
    table: Option<u32>,
    to: Option<u32>,
    line: Line,
) -> Stepped
    requires sound { IsSound m.old }
    requires names { NamesObjects m.old }
    requires alive { V.alive vault.old }
    requires table { IfSome table (IsHeld m.old.objects) }
    requires to { IfSome to (IsHeld m.old.objects) }
    ensures puts { Follows (V.outside vault.old) (V.outside vault.new) (AreTableAndEntry m.old.objects (V.outside vault.old) table to) (int_entered line key) m.old m.new result }
    ensures fails { FailsAsReading (V.outside vault.old) (V.outside vault.new) result m.new }
    ensures leaves { LeavesOutside (V.outside vault.old) (V.outside vault.new) }
    ensures numbers { SameNumbers V.used_words V.directory_at V.most_words V.access vault.old vault.new }
    ensures alive { UnlessBroken result (V.alive vault.new) }
{
    let done = m.objects.enter_int(vault, key, table, to);
    end_enter::<V>(m, done, line)
}

/// Pops a table, and pushes how many pairs it has. Trap Overflow where these are no int.
#[inline]
pub fn cardinality<V: Vault>(m: &mut Machine, vault: &V, line: Line) -> Stepped
    requires sound { IsSound m.old }
    requires names { NamesObjects m.old }
    ensures takes { Takes (V.outside vault.now) (V.outside vault.now) (call_on_heap Cardinality line) m.old m.new result }
    ensures fails { FailsAsReading (V.outside vault.now) (V.outside vault.now) result m.new }
{
    let Some(table) = pop_object::<V>(m) else {
        return Stepped::Damaged;
    };
    let counted = m.objects.cardinality(vault, table);
    give_count::<V>(m, counted, line)
}
