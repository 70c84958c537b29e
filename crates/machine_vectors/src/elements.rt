//! Instructions over elements of vectors.
ghost use Rattle.machine_core.specs.obj_layout.Storing.{SameNumbers};
ghost use Rattle.machine_core.specs.swizzle.Heap.{IsHeld};
ghost use Rattle.machine_core.specs.swizzle.Reading.{LeavesOutside};
ghost use Rattle.machine_core.specs.ps_stepping.Objects.{element_num as element_num_of, element_ref as element_ref_of};
ghost use Rattle.machine_core.specs.Failing.{FailsAsReading};
ghost use Rattle.machine_core.specs.Holding.{IsSound};
ghost use Rattle.machine_core.specs.Naming.{NamesObjects};
ghost use Rattle.machine_core.specs.Stepped.{Takes, UnlessBroken};
ghost use Rattle.machine_operands.specs.Popping.{anything};
ghost use Rattle.machine_vectors.specs.inside.Elements.{TakesVector, number_read, reference_read};

pub use crate::puts::{set_element_num, set_element_ref};
use machine_core::obj_layout::vault::Vault;
use machine_core::stacks::push_num;
use machine_core::{Machine, Stepped};
use machine_operands::gives::{give_number, give_reference};
use machine_operands::pops::{pop_int, pop_vector};
use ps_base::line::Line;

/// Pops a subscript and a vector, and pushes its element, which is an int or a bool. Trap Bounds where the subscript is outside the vector. Damaged
/// where there is no subscript or no vector on top, or the elements are references; breaks off where the text of the type can't be fetched.
#[inline]
pub fn element_num<V: Vault>(m: &mut Machine, vault: &mut V, line: Line) -> Stepped
    requires sound { IsSound m.old }
    requires names { NamesObjects m.old }
    requires alive { V.alive vault.old }
    ensures takes { Takes (V.outside vault.old) (V.outside vault.new) (element_num_of line) m.old m.new result }
    ensures fails { FailsAsReading (V.outside vault.old) (V.outside vault.new) result m.new }
    ensures leaves { LeavesOutside (V.outside vault.old) (V.outside vault.new) }
    ensures numbers { SameNumbers V.used_words V.directory_at V.most_words V.access vault.old vault.new }
    ensures alive { UnlessBroken result (V.alive vault.new) }
{
    let Some(at) = pop_int::<V>(m) else {
        return Stepped::Damaged;
    };
    let Some(vector) = pop_vector::<V>(m) else {
        return Stepped::Damaged;
    };
    match m.objects.element_number::<V>(vector, at) {
        Some(z) => push_num::<V>(m, z),
        None => find_number(m, vault, vector, at, line),
    }
}

// Pushes an element that isn't reached by what is known of its vector, or ends in the trap of the subscript.
#[inline(never)]
fn find_number<V: Vault>(
    m: &mut Machine,
    vault: &mut V,
    vector: u32,
    at: i32,
    line: Line,
) -> Stepped
    requires sound { IsSound m.old }
    requires names { NamesObjects m.old }
    requires alive { V.alive vault.old }
    requires held { IsHeld m.old.objects vector }
    ensures finds { TakesVector (V.outside vault.old) (V.outside vault.new) anything (number_read line at) vector m.old m.new result }
    ensures fails { FailsAsReading (V.outside vault.old) (V.outside vault.new) result m.new }
    ensures leaves { LeavesOutside (V.outside vault.old) (V.outside vault.new) }
    ensures numbers { SameNumbers V.used_words V.directory_at V.most_words V.access vault.old vault.new }
    ensures alive { UnlessBroken result (V.alive vault.new) }
{
    let got = m.objects.get_element(vault, vector, at);
    give_number::<V>(m, got, line)
}

/// As `element_num`, where the element is a reference; damaged where the elements are ints or bools. It also breaks off where the object that the element
/// refers to can't be fetched.
#[inline]
pub fn element_ref<V: Vault>(m: &mut Machine, vault: &mut V, line: Line) -> Stepped
    requires sound { IsSound m.old }
    requires names { NamesObjects m.old }
    requires alive { V.alive vault.old }
    ensures takes { Takes (V.outside vault.old) (V.outside vault.new) (element_ref_of line) m.old m.new result }
    ensures fails { FailsAsReading (V.outside vault.old) (V.outside vault.new) result m.new }
    ensures leaves { LeavesOutside (V.outside vault.old) (V.outside vault.new) }
    ensures numbers { SameNumbers V.used_words V.directory_at V.most_words V.access vault.old vault.new }
    ensures alive { UnlessBroken result (V.alive vault.new) }
{
    let Some(at) = pop_int::<V>(m) else {
        return Stepped::Damaged;
    };
    let Some(vector) = pop_vector::<V>(m) else {
        return Stepped::Damaged;
    };
    find_reference(m, vault, vector, at, line)
}

// Pushes an element that is a reference, or ends in the trap of the subscript.
#[inline(always)]
fn find_reference<V: Vault>(
    m: &mut Machine,
    vault: &mut V,
    vector: u32,
    at: i32,
    line: Line,
) -> Stepped
    requires sound { IsSound m.old }
    requires names { NamesObjects m.old }
    requires alive { V.alive vault.old }
    requires held { IsHeld m.old.objects vector }
    ensures finds { TakesVector (V.outside vault.old) (V.outside vault.new) anything (reference_read line at) vector m.old m.new result }
    ensures fails { FailsAsReading (V.outside vault.old) (V.outside vault.new) result m.new }
    ensures leaves { LeavesOutside (V.outside vault.old) (V.outside vault.new) }
    ensures numbers { SameNumbers V.used_words V.directory_at V.most_words V.access vault.old vault.new }
    ensures alive { UnlessBroken result (V.alive vault.new) }
{
    let got = m.objects.get_element(vault, vector, at);
    give_reference::<V>(m, got, line)
}
