//! Instructions that write an element of a vector.
ghost use Rattle.std.specs.Prelude.{IfSome};
ghost use Rattle.machine_core.specs.obj_layout.Storing.{SameNumbers};
ghost use Rattle.machine_core.specs.swizzle.Heap.{IsHeld};
ghost use Rattle.machine_core.specs.swizzle.Reading.{LeavesOutside};
ghost use Rattle.machine_core.specs.ps_stepping.Objects.{set_element_num as set_element_num_of, set_element_ref as set_element_ref_of};
ghost use Rattle.machine_core.specs.Failing.{FailsAsReading};
ghost use Rattle.machine_core.specs.Holding.{IsSound};
ghost use Rattle.machine_core.specs.Naming.{NamesObjects};
ghost use Rattle.machine_core.specs.Stepped.{Takes, UnlessBroken};
ghost use Rattle.machine_operands.specs.Popping.{anything};
ghost use Rattle.machine_vectors.specs.inside.Elements.{PutsReference, RefusesElement, TakesVector, OfNumbers, OfReferences, number_put};

use machine_core::ends::trapped;
use machine_core::heap_ops::shape::is_number;
use machine_core::joint_ops::{OpFault, Value};
use machine_core::obj_layout::vault::Vault;
use machine_core::text_forms::forms::Form;
use machine_core::{Machine, Stepped};
use machine_operands::gives::{broke, done};
use machine_operands::pops::{pop_any, pop_int, pop_vector};
use ps_base::line::Line;

/// Pops a number, a subscript and a vector, and writes the number as the element there. Trap Bounds where the subscript is outside the vector. Damaged
/// where these aren't on top, or the subscript is inside and the elements are references; breaks off where the text of the type can't be fetched.
#[inline]
pub fn set_element_num<V: Vault>(m: &mut Machine, vault: &mut V, line: Line) -> Stepped
    requires sound { IsSound m.old }
    requires names { NamesObjects m.old }
    requires alive { V.alive vault.old }
    ensures takes { Takes (V.outside vault.old) (V.outside vault.new) (set_element_num_of line) m.old m.new result }
    ensures fails { FailsAsReading (V.outside vault.old) (V.outside vault.new) result m.new }
    ensures leaves { LeavesOutside (V.outside vault.old) (V.outside vault.new) }
    ensures numbers { SameNumbers V.used_words V.directory_at V.most_words V.access vault.old vault.new }
    ensures alive { UnlessBroken result (V.alive vault.new) }
{
    let Some(z) = pop_int::<V>(m) else {
        return Stepped::Damaged;
    };
    let Some(at) = pop_int::<V>(m) else {
        return Stepped::Damaged;
    };
    let Some(vector) = pop_vector::<V>(m) else {
        return Stepped::Damaged;
    };
    write_number(m, vault, vector, at, z, line)
}

// Writes a number as an element of a vector.
#[inline(always)]
fn write_number<V: Vault>(
    m: &mut Machine,
    vault: &mut V,
    vector: u32,
    at: i32,
    z: i32,
    line: Line,
) -> Stepped
    requires sound { IsSound m.old }
    requires names { NamesObjects m.old }
    requires alive { V.alive vault.old }
    requires held { IsHeld m.old.objects vector }
    ensures puts { TakesVector (V.outside vault.old) (V.outside vault.new) anything (number_put line at z) vector m.old m.new result }
    ensures fails { FailsAsReading (V.outside vault.old) (V.outside vault.new) result m.new }
    ensures leaves { LeavesOutside (V.outside vault.old) (V.outside vault.new) }
    ensures numbers { SameNumbers V.used_words V.directory_at V.most_words V.access vault.old vault.new }
    ensures alive { UnlessBroken result (V.alive vault.new) }
{
    match m.objects.known_form::<V>(vector, at) {
        Some(form) if is_number(form) => put_number(m, vault, vector, at, z, line),
        _ => place_number(m, vault, vector, at, z, line),
    }
}

// Writes a number as an element where the elements are ints or bools.
#[inline(always)]
fn put_number<V: Vault>(
    m: &mut Machine,
    vault: &mut V,
    vector: u32,
    at: i32,
    z: i32,
    line: Line,
) -> Stepped
    requires sound { IsSound m.old }
    requires names { NamesObjects m.old }
    requires alive { V.alive vault.old }
    requires held { IsHeld m.old.objects vector }
    ensures puts { TakesVector (V.outside vault.old) (V.outside vault.new) OfNumbers (number_put line at z) vector m.old m.new result }
    ensures fails { FailsAsReading (V.outside vault.old) (V.outside vault.new) result m.new }
    ensures leaves { LeavesOutside (V.outside vault.old) (V.outside vault.new) }
    ensures numbers { SameNumbers V.used_words V.directory_at V.most_words V.access vault.old vault.new }
    ensures alive { UnlessBroken result (V.alive vault.new) }
{
    let set = m.objects.set_element(vault, vector, at, Value::Num(z));
    done::<V>(m, set, line)
}

// Writes a number as an element of a vector whose elements may be references: then it ends in the trap of the subscript, or is damaged.
#[inline(never)]
fn place_number<V: Vault>(
    m: &mut Machine,
    vault: &mut V,
    vector: u32,
    at: i32,
    z: i32,
    line: Line,
) -> Stepped
    requires sound { IsSound m.old }
    requires names { NamesObjects m.old }
    requires alive { V.alive vault.old }
    requires held { IsHeld m.old.objects vector }
    ensures puts { TakesVector (V.outside vault.old) (V.outside vault.new) anything (number_put line at z) vector m.old m.new result }
    ensures fails { FailsAsReading (V.outside vault.old) (V.outside vault.new) result m.new }
    ensures leaves { LeavesOutside (V.outside vault.old) (V.outside vault.new) }
    ensures numbers { SameNumbers V.used_words V.directory_at V.most_words V.access vault.old vault.new }
    ensures alive { UnlessBroken result (V.alive vault.new) }
{
    let told = m.objects.element_form(vault, vector);
    match told {
        Ok(form) => {
            if is_number(form) {
                put_number(m, vault, vector, at, z, line)
            } else {
                refuse(m, vault, vector, at, line)
            }
        }
        Err(OpFault::Swizzle(fault)) => broke::<V>(m, fault),
        Err(OpFault::Trap(_)) => Stepped::Damaged,
    }
}

/// As `set_element_num`, with a reference in place of the number; damaged where the elements are ints or bools.
#[inline]
pub fn set_element_ref<V: Vault>(m: &mut Machine, vault: &mut V, line: Line) -> Stepped
    requires sound { IsSound m.old }
    requires names { NamesObjects m.old }
    requires alive { V.alive vault.old }
    ensures takes { Takes (V.outside vault.old) (V.outside vault.new) (set_element_ref_of line) m.old m.new result }
    ensures fails { FailsAsReading (V.outside vault.old) (V.outside vault.new) result m.new }
    ensures leaves { LeavesOutside (V.outside vault.old) (V.outside vault.new) }
    ensures numbers { SameNumbers V.used_words V.directory_at V.most_words V.access vault.old vault.new }
    ensures alive { UnlessBroken result (V.alive vault.new) }
{
    let Some(to) = pop_any::<V>(m) else {
        return Stepped::Damaged;
    };
    let Some(at) = pop_int::<V>(m) else {
        return Stepped::Damaged;
    };
    let Some(vector) = pop_vector::<V>(m) else {
        return Stepped::Damaged;
    };
    write_reference(m, vault, vector, at, to, line)
}

// Writes a reference as an element of a vector.
#[inline(always)]
fn write_reference<V: Vault>(
    m: &mut Machine,
    vault: &mut V,
    vector: u32,
    at: i32,
    to: Option<u32>,
    line: Line,
) -> Stepped
    requires sound { IsSound m.old }
    requires names { NamesObjects m.old }
    requires alive { V.alive vault.old }
    requires held { IsHeld m.old.objects vector }
    requires near { IfSome to (IsHeld m.old.objects) }
    ensures puts { PutsReference (V.outside vault.old) (V.outside vault.new) anything line at to vector m.old m.new result }
    ensures fails { FailsAsReading (V.outside vault.old) (V.outside vault.new) result m.new }
    ensures leaves { LeavesOutside (V.outside vault.old) (V.outside vault.new) }
    ensures numbers { SameNumbers V.used_words V.directory_at V.most_words V.access vault.old vault.new }
    ensures alive { UnlessBroken result (V.alive vault.new) }
{
    match m.objects.known_form::<V>(vector, at) {
        Some(Form::Reference) => put_reference(m, vault, vector, at, to, line),
        _ => place_reference(m, vault, vector, at, to, line),
    }
}

// Writes a reference as an element where the elements are references.
#[inline(always)]
fn put_reference<V: Vault>(
    m: &mut Machine,
    vault: &mut V,
    vector: u32,
    at: i32,
    to: Option<u32>,
    line: Line,
) -> Stepped
    requires sound { IsSound m.old }
    requires names { NamesObjects m.old }
    requires alive { V.alive vault.old }
    requires held { IsHeld m.old.objects vector }
    requires near { IfSome to (IsHeld m.old.objects) }
    ensures puts { PutsReference (V.outside vault.old) (V.outside vault.new) OfReferences line at to vector m.old m.new result }
    ensures fails { FailsAsReading (V.outside vault.old) (V.outside vault.new) result m.new }
    ensures leaves { LeavesOutside (V.outside vault.old) (V.outside vault.new) }
    ensures numbers { SameNumbers V.used_words V.directory_at V.most_words V.access vault.old vault.new }
    ensures alive { UnlessBroken result (V.alive vault.new) }
{
    let set = m.objects.set_element(vault, vector, at, Value::Ref(to));
    done::<V>(m, set, line)
}

// Writes a reference as an element of a vector whose elements may be ints or bools: then it ends in the trap of the subscript, or is damaged.
#[inline(never)]
fn place_reference<V: Vault>(
    m: &mut Machine,
    vault: &mut V,
    vector: u32,
    at: i32,
    to: Option<u32>,
    line: Line,
) -> Stepped
    requires sound { IsSound m.old }
    requires names { NamesObjects m.old }
    requires alive { V.alive vault.old }
    requires held { IsHeld m.old.objects vector }
    requires near { IfSome to (IsHeld m.old.objects) }
    ensures puts { PutsReference (V.outside vault.old) (V.outside vault.new) anything line at to vector m.old m.new result }
    ensures fails { FailsAsReading (V.outside vault.old) (V.outside vault.new) result m.new }
    ensures leaves { LeavesOutside (V.outside vault.old) (V.outside vault.new) }
    ensures numbers { SameNumbers V.used_words V.directory_at V.most_words V.access vault.old vault.new }
    ensures alive { UnlessBroken result (V.alive vault.new) }
{
    let told = m.objects.element_form(vault, vector);
    match told {
        Ok(form) => {
            if is_number(form) {
                refuse(m, vault, vector, at, line)
            } else {
                put_reference(m, vault, vector, at, to, line)
            }
        }
        Err(OpFault::Swizzle(fault)) => broke::<V>(m, fault),
        Err(OpFault::Trap(_)) => Stepped::Damaged,
    }
}

// The trap of a subscript that is outside a vector; damaged where it is inside, since what was to be written there belongs into the other row.
#[inline(never)]
fn refuse<V: Vault>(m: &mut Machine, vault: &mut V, vector: u32, at: i32, line: Line) -> Stepped
    requires sound { IsSound m.old }
    requires names { NamesObjects m.old }
    requires alive { V.alive vault.old }
    requires held { IsHeld m.old.objects vector }
    ensures refuses { RefusesElement (V.outside vault.old) (V.outside vault.new) line at vector m.old m.new result }
    ensures fails { FailsAsReading (V.outside vault.old) (V.outside vault.new) result m.new }
    ensures leaves { LeavesOutside (V.outside vault.old) (V.outside vault.new) }
    ensures numbers { SameNumbers V.used_words V.directory_at V.most_words V.access vault.old vault.new }
    ensures alive { UnlessBroken result (V.alive vault.new) }
{
    let got = m.objects.get_element(vault, vector, at);
    match got {
        Ok(_) => Stepped::Damaged,
        Err(OpFault::Trap(trap)) => trapped::<V>(m, trap, line),
        Err(OpFault::Swizzle(fault)) => broke::<V>(m, fault),
    }
}
