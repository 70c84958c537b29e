//! Instructions over names that are kept in scopes.
ghost use Rattle.std.specs.Prelude.{◌≡◌, ◌≢◌};
ghost use Rattle.machine_core.specs.obj_layout.Storing.{SameNumbers};
ghost use Rattle.machine_core.specs.swizzle.Reading.{LeavesOutside};
ghost use Rattle.machine_core.specs.heap_places.Places.{IsNear};
ghost use Rattle.machine_core.specs.ps_stepping.Procedures.{keep_num as keep_num_of, keep_ref as keep_ref_of, kept_num as kept_num_of, kept_ref as kept_ref_of};
ghost use Rattle.machine_core.specs.Holding.{IsSound};
ghost use Rattle.machine_core.specs.Naming.{NamesObjects};
ghost use Rattle.machine_core.specs.Stepped.{Takes, UnlessBroken};
ghost use Rattle.machine_core.specs.declared.stepped.Stepped.TheVariants.{Breaks};
ghost use Rattle.joint_procedures.specs.Scopes.{IsInt};
ghost use Rattle.machine_core.specs.Failing.{FailsAsReading};
ghost use Rattle.machine_calls.specs.inside.Names.{PushesReference, WritesName, number_pushed};

use crate::faults::broke;
use machine_core::current::scope;
use machine_core::joint_ops::Value;
use machine_core::obj_layout::vault::Vault;
use machine_core::stacks::{object, pop_num, pop_ref, push_num, push_ref};
use machine_core::values::number;
use machine_core::{Machine, Stepped};

/// Pushes the int or the bool that is kept under the name of this number of the scope so many levels out. Damaged where the run is in no scope, the name
/// keeps a reference, or the stack is full; breaks off where there is no such scope, its text has no such name, or what it needs can't be fetched.
#[inline]
pub fn kept_num<V: Vault>(m: &mut Machine, vault: &mut V, up: u32, name: u32) -> Stepped
    requires sound { IsSound m.old }
    requires names { NamesObjects m.old }
    requires alive { V.alive vault.old }
    ensures takes { Takes (V.outside vault.old) (V.outside vault.new) (kept_num_of up name) m.old m.new result }
    ensures fails { FailsAsReading (V.outside vault.old) (V.outside vault.new) result m.new }
    ensures leaves { LeavesOutside (V.outside vault.old) (V.outside vault.new) }
    ensures numbers { SameNumbers V.used_words V.directory_at V.most_words V.access vault.old vault.new }
    ensures alive { UnlessBroken result (V.alive vault.new) }
{
    let Some(at) = scope::<V>(m) else {
        return Stepped::Damaged;
    };
    let got = m.objects.get_kept(vault, at, up, name);
    match got {
        Ok(value) => push_number::<V>(m, value),
        Err(fault) => broke(m, fault),
    }
}

/// As `kept_num`, where the name keeps a reference; damaged where it keeps a number.
#[inline]
pub fn kept_ref<V: Vault>(m: &mut Machine, vault: &mut V, up: u32, name: u32) -> Stepped
    requires sound { IsSound m.old }
    requires names { NamesObjects m.old }
    requires alive { V.alive vault.old }
    ensures takes { Takes (V.outside vault.old) (V.outside vault.new) (kept_ref_of up name) m.old m.new result }
    ensures fails { FailsAsReading (V.outside vault.old) (V.outside vault.new) result m.new }
    ensures leaves { LeavesOutside (V.outside vault.old) (V.outside vault.new) }
    ensures numbers { SameNumbers V.used_words V.directory_at V.most_words V.access vault.old vault.new }
    ensures alive { UnlessBroken result (V.alive vault.new) }
{
    let Some(at) = scope::<V>(m) else {
        return Stepped::Damaged;
    };
    let got = m.objects.get_kept(vault, at, up, name);
    match got {
        Ok(value) => push_reference::<V>(m, value),
        Err(fault) => broke(m, fault),
    }
}

// Pushes a value where it is an int or a bool.
#[inline(always)]
fn push_number<V: Vault>(m: &mut Machine, value: Value) -> Stepped
    requires { IsSound m.old }
    ensures takes { (v : V) → Takes (V.outside v) (V.outside v) (number_pushed value) m.old m.new result }
    ensures goes { result ≢ Breaks }
{
    match value {
        Value::Num(z) => push_num::<V>(m, z),
        Value::Flag(flag) => push_num::<V>(m, number(flag)),
        Value::Ref(_) => Stepped::Damaged,
    }
}

// Pushes a value where it is a reference.
#[inline(always)]
fn push_reference<V: Vault>(m: &mut Machine, value: Value) -> Stepped
    requires { IsSound m.old }
    ensures takes { (v : V) → PushesReference (V.outside v) (V.outside v) value m.old m.new result }
    ensures goes { result ≢ Breaks }
{
    match value {
        Value::Ref(to) => push_ref::<V>(m, to),
        Value::Num(_) => Stepped::Damaged,
        Value::Flag(_) => Stepped::Damaged,
    }
}

/// Pops a number, and keeps it as an int or a bool under the name of this number of the scope so many levels out. Damaged where no number was pushed, or
/// the run is in no scope; breaks off where there is no such scope, its text has no such name, the name keeps a reference, or what it needs can't be
/// fetched.
#[inline]
pub fn keep_num<V: Vault>(m: &mut Machine, vault: &mut V, up: u32, name: u32) -> Stepped
    requires sound { IsSound m.old }
    requires names { NamesObjects m.old }
    requires alive { V.alive vault.old }
    ensures takes { Takes (V.outside vault.old) (V.outside vault.new) (keep_num_of up name) m.old m.new result }
    ensures fails { FailsAsReading (V.outside vault.old) (V.outside vault.new) result m.new }
    ensures leaves { LeavesOutside (V.outside vault.old) (V.outside vault.new) }
    ensures numbers { SameNumbers V.used_words V.directory_at V.most_words V.access vault.old vault.new }
    ensures alive { UnlessBroken result (V.alive vault.new) }
{
    match pop_num::<V>(m) {
        Some(z) => write_name(m, vault, up, name, Value::Num(z)),
        None => Stepped::Damaged,
    }
}

/// As `keep_num`, where the name keeps a reference; it breaks off where it keeps a number.
#[inline]
pub fn keep_ref<V: Vault>(m: &mut Machine, vault: &mut V, up: u32, name: u32) -> Stepped
    requires sound { IsSound m.old }
    requires names { NamesObjects m.old }
    requires alive { V.alive vault.old }
    ensures takes { Takes (V.outside vault.old) (V.outside vault.new) (keep_ref_of up name) m.old m.new result }
    ensures fails { FailsAsReading (V.outside vault.old) (V.outside vault.new) result m.new }
    ensures leaves { LeavesOutside (V.outside vault.old) (V.outside vault.new) }
    ensures numbers { SameNumbers V.used_words V.directory_at V.most_words V.access vault.old vault.new }
    ensures alive { UnlessBroken result (V.alive vault.new) }
{
    match pop_ref::<V>(m) {
        Some(word) => write_name(m, vault, up, name, Value::Ref(object(word))),
        None => Stepped::Damaged,
    }
}

// Writes what is kept under the name of this number of the scope so many levels out.
#[inline]
fn write_name<V: Vault>(m: &mut Machine, vault: &mut V, up: u32, name: u32, to: Value) -> Stepped
    requires sound { IsSound m.old }
    requires names { NamesObjects m.old }
    requires alive { V.alive vault.old }
    requires near { IsNear m.old.objects to }
    requires int { IsInt to }
    ensures writes { WritesName (V.outside vault.old) (V.outside vault.new) up name to m.old m.new result }
    ensures fails { FailsAsReading (V.outside vault.old) (V.outside vault.new) result m.new }
    ensures leaves { LeavesOutside (V.outside vault.old) (V.outside vault.new) }
    ensures numbers { SameNumbers V.used_words V.directory_at V.most_words V.access vault.old vault.new }
    ensures alive { UnlessBroken result (V.alive vault.new) }
{
    let Some(at) = scope::<V>(m) else {
        return Stepped::Damaged;
    };
    let set = m.objects.set_kept(vault, at, up, name, to);
    match set {
        Ok(()) => Stepped::Quiet,
        Err(fault) => broke(m, fault),
    }
}
