//! Instructions that read and write fields of structures. The class is a text constant of the code that runs, by its number, and the field has its number
//! in the class. Where the object is nil the trap is Nil, and WrongClass where it is a structure of another class.
ghost use Rattle.std.specs.Prelude.{◌≡◌};
ghost use Rattle.machine_core.specs.obj_layout.Storing.{SameNumbers};
ghost use Rattle.machine_core.specs.swizzle.Heap.{IsHeld};
ghost use Rattle.machine_core.specs.swizzle.Reading.{LeavesOutside};
ghost use Rattle.machine_core.specs.heap_places.Places.{IsNear};
ghost use Rattle.machine_core.specs.ps_stepping.Objects.{field_num as field_num_of, field_ref as field_ref_of, set_field_num as set_field_num_of, set_field_ref as set_field_ref_of};
ghost use Rattle.machine_core.specs.Failing.{FailsAsReading};
ghost use Rattle.machine_core.specs.Holding.{IsSound};
ghost use Rattle.machine_core.specs.Naming.{NamesObjects};
ghost use Rattle.machine_core.specs.Stepped.{Takes, UnlessBroken};
ghost use Rattle.machine_structures.specs.inside.Fields.{PutsField};

use crate::traps::{Field, Row, field_trapped, object_trapped};
use machine_core::joint_ops::{OpFault, Value};
use machine_core::obj_layout::vault::Vault;
use machine_core::{Machine, Stepped};
use machine_operands::gives::{broke, give_number, give_reference};
use machine_operands::pops::{pop_any, pop_int};
use ps_base::line::Line;

/// Pops nil or a structure, and pushes the number that its field of a class holds. Damaged where neither is on top, or the field holds a reference; breaks
/// off where the code has no such class, or the class no such field, or what isn't in the area can't be fetched.
#[inline]
pub fn field_num<V: Vault>(m: &mut Machine, vault: &mut V, k: u32, n: u32, line: Line) -> Stepped
    requires sound { IsSound m.old }
    requires names { NamesObjects m.old }
    requires alive { V.alive vault.old }
    ensures takes { Takes (V.outside vault.old) (V.outside vault.new) (field_num_of k n line) m.old m.new result }
    ensures fails { FailsAsReading (V.outside vault.old) (V.outside vault.new) result m.new }
    ensures leaves { LeavesOutside (V.outside vault.old) (V.outside vault.new) }
    ensures numbers { SameNumbers V.used_words V.directory_at V.most_words V.access vault.old vault.new }
    ensures alive { UnlessBroken result (V.alive vault.new) }
{
    let field = Field {
        code: m.code,
        constant: k,
        number: n,
    };
    let Some(object) = pop_any::<V>(m) else {
        return Stepped::Damaged;
    };
    let got = m.objects.get_field(vault, object, field.code, k, n);
    match got {
        Ok(value) => give_number::<V>(m, Ok(value), line),
        Err(OpFault::Trap(trap)) => {
            field_trapped(m, vault, object, field, Row::Numbers, trap, line)
        }
        Err(OpFault::Swizzle(fault)) => broke::<V>(m, fault),
    }
}

/// As `field_num`, where the field holds a reference; damaged where it holds a number.
#[inline]
pub fn field_ref<V: Vault>(m: &mut Machine, vault: &mut V, k: u32, n: u32, line: Line) -> Stepped
    requires sound { IsSound m.old }
    requires names { NamesObjects m.old }
    requires alive { V.alive vault.old }
    ensures takes { Takes (V.outside vault.old) (V.outside vault.new) (field_ref_of k n line) m.old m.new result }
    ensures fails { FailsAsReading (V.outside vault.old) (V.outside vault.new) result m.new }
    ensures leaves { LeavesOutside (V.outside vault.old) (V.outside vault.new) }
    ensures numbers { SameNumbers V.used_words V.directory_at V.most_words V.access vault.old vault.new }
    ensures alive { UnlessBroken result (V.alive vault.new) }
{
    let field = Field {
        code: m.code,
        constant: k,
        number: n,
    };
    let Some(object) = pop_any::<V>(m) else {
        return Stepped::Damaged;
    };
    let got = m.objects.get_field(vault, object, field.code, k, n);
    match got {
        Ok(value) => give_reference::<V>(m, Ok(value), line),
        Err(OpFault::Trap(trap)) => {
            field_trapped(m, vault, object, field, Row::References, trap, line)
        }
        Err(OpFault::Swizzle(fault)) => broke::<V>(m, fault),
    }
}

/// Pops a number, and nil or a structure below it, and writes the number into its field of a class, as an int or as a bool. Damaged where they aren't there;
/// breaks off where the code has no such class, or the class no such field of a number, or what isn't in the area can't be fetched.
#[inline]
pub fn set_field_num<V: Vault>(
    m: &mut Machine,
    vault: &mut V,
    k: u32,
    n: u32,
    line: Line,
) -> Stepped
    requires sound { IsSound m.old }
    requires names { NamesObjects m.old }
    requires alive { V.alive vault.old }
    ensures takes { Takes (V.outside vault.old) (V.outside vault.new) (set_field_num_of k n line) m.old m.new result }
    ensures fails { FailsAsReading (V.outside vault.old) (V.outside vault.new) result m.new }
    ensures leaves { LeavesOutside (V.outside vault.old) (V.outside vault.new) }
    ensures numbers { SameNumbers V.used_words V.directory_at V.most_words V.access vault.old vault.new }
    ensures alive { UnlessBroken result (V.alive vault.new) }
{
    let field = Field {
        code: m.code,
        constant: k,
        number: n,
    };
    let Some(z) = pop_int::<V>(m) else {
        return Stepped::Damaged;
    };
    put_field(m, vault, field, Value::Num(z), line)
}

/// As `set_field_num`, with a reference; it breaks off where the field holds a number.
#[inline]
pub fn set_field_ref<V: Vault>(
    m: &mut Machine,
    vault: &mut V,
    k: u32,
    n: u32,
    line: Line,
) -> Stepped
    requires sound { IsSound m.old }
    requires names { NamesObjects m.old }
    requires alive { V.alive vault.old }
    ensures takes { Takes (V.outside vault.old) (V.outside vault.new) (set_field_ref_of k n line) m.old m.new result }
    ensures fails { FailsAsReading (V.outside vault.old) (V.outside vault.new) result m.new }
    ensures leaves { LeavesOutside (V.outside vault.old) (V.outside vault.new) }
    ensures numbers { SameNumbers V.used_words V.directory_at V.most_words V.access vault.old vault.new }
    ensures alive { UnlessBroken result (V.alive vault.new) }
{
    let field = Field {
        code: m.code,
        constant: k,
        number: n,
    };
    let Some(to) = pop_any::<V>(m) else {
        return Stepped::Damaged;
    };
    put_field(m, vault, field, Value::Ref(to), line)
}

// Pops nil or a structure, and writes a value into its field.
#[inline(always)]
fn put_field<V: Vault>(
    m: &mut Machine,
    vault: &mut V,
    field: Field,
    to: Value,
    line: Line,
) -> Stepped
    requires sound { IsSound m.old }
    requires names { NamesObjects m.old }
    requires alive { V.alive vault.old }
    requires code { IsHeld m.old.objects field.code }
    requires near { IsNear m.old.objects to }
    ensures puts { PutsField (V.outside vault.old) (V.outside vault.new) field to line m.old m.new result }
    ensures fails { FailsAsReading (V.outside vault.old) (V.outside vault.new) result m.new }
    ensures leaves { LeavesOutside (V.outside vault.old) (V.outside vault.new) }
    ensures numbers { SameNumbers V.used_words V.directory_at V.most_words V.access vault.old vault.new }
    ensures alive { UnlessBroken result (V.alive vault.new) }
{
    let Some(object) = pop_any::<V>(m) else {
        return Stepped::Damaged;
    };
    let set = m.objects.set_field(vault, object, field.code, field.constant, field.number, to);
    match set {
        Ok(()) => Stepped::Quiet,
        Err(OpFault::Trap(trap)) => object_trapped::<V>(m, object, trap, line),
        Err(OpFault::Swizzle(fault)) => broke::<V>(m, fault),
    }
}
