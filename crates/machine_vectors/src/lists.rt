//! Instructions that make a vector of what is pushed.
ghost use Rattle.machine_core.specs.obj_layout.Storing.{SameNumbers};
ghost use Rattle.machine_core.specs.obj_layout.declared.kind.Kind.TheVariants.{Text};
ghost use Rattle.machine_core.specs.swizzle.Reading.{LeavesOutside};
ghost use Rattle.machine_core.specs.heap_places.Filling.{AreNear};
ghost use Rattle.machine_core.specs.ps_stepping.Objects.{list_num as list_num_of, list_ref as list_ref_of};
ghost use Rattle.machine_core.specs.Failing.{FailsAsReading};
ghost use Rattle.machine_core.specs.Holding.{IsSound};
ghost use Rattle.machine_core.specs.Naming.{NamesObjects};
ghost use Rattle.machine_core.specs.Stepped.{Takes, UnlessBroken};
ghost use Rattle.machine_operands.specs.Popping.{IsKind};
ghost use Rattle.machine_vectors.specs.inside.Making.{ListsValues, TakesType, numbers_listed, references_listed};

use crate::taken::{take_nums, take_refs};
use machine_core::heap_ops::shape::is_number;
use machine_core::obj_layout::vault::Vault;
use machine_core::text_forms::forms::element_form;
use machine_core::{Machine, Stepped};
use machine_operands::constants::text_constant;
use machine_operands::gives::give_object;
use machine_operands::pops::pop_int;
use ps_base::line::Line;

/// Pops n numbers, the last first, and a lower bound below them; makes a vector of them, whose type is the text constant of number k, and pushes it. Trap
/// Bounds where no vector has so many elements, or such a lower bound. Damaged where these aren't on top, that constant is a unit, the elements of the
/// type are references, or the stack of references is full; breaks off where there is no such constant, its text can't be fetched, or the area has no
/// room.
#[inline]
pub fn list_num<V: Vault>(m: &mut Machine, vault: &mut V, k: u32, n: u32, line: Line) -> Stepped
    requires sound { IsSound m.old }
    requires names { NamesObjects m.old }
    requires alive { V.alive vault.old }
    ensures takes { Takes (V.outside vault.old) (V.outside vault.new) (list_num_of k n line) m.old m.new result }
    ensures fails { FailsAsReading (V.outside vault.old) (V.outside vault.new) result m.new }
    ensures leaves { LeavesOutside (V.outside vault.old) (V.outside vault.new) }
    ensures numbers { SameNumbers V.used_words V.directory_at V.most_words V.access vault.old vault.new }
    ensures alive { UnlessBroken result (V.alive vault.new) }
{
    match text_constant(m, vault, k) {
        Ok(ty) => list_numbers(m, vault, ty, n, line),
        Err(answer) => answer,
    }
}

// Makes a vector of a type, which is a text, of so many numbers.
#[inline]
fn list_numbers<V: Vault>(m: &mut Machine, vault: &V, ty: u32, n: u32, line: Line) -> Stepped
    requires sound { IsSound m.old }
    requires names { NamesObjects m.old }
    requires text { IsKind Text m.old.objects ty }
    ensures makes { TakesType (V.outside vault.now) (numbers_listed n line) ty m.old m.new result }
    ensures fails { FailsAsReading (V.outside vault.now) (V.outside vault.now) result m.new }
{
    let form = element_form(m.objects.text_bytes::<V>(ty));
    if !is_number(form) {
        return Stepped::Damaged;
    }
    if !take_nums::<V>(m, form, n) {
        return Stepped::Damaged;
    }
    list_values(m, vault, ty, line)
}

/// As `list_num`, with references in place of the numbers; damaged where the elements of the type are ints or bools.
#[inline]
pub fn list_ref<V: Vault>(m: &mut Machine, vault: &mut V, k: u32, n: u32, line: Line) -> Stepped
    requires sound { IsSound m.old }
    requires names { NamesObjects m.old }
    requires alive { V.alive vault.old }
    ensures takes { Takes (V.outside vault.old) (V.outside vault.new) (list_ref_of k n line) m.old m.new result }
    ensures fails { FailsAsReading (V.outside vault.old) (V.outside vault.new) result m.new }
    ensures leaves { LeavesOutside (V.outside vault.old) (V.outside vault.new) }
    ensures numbers { SameNumbers V.used_words V.directory_at V.most_words V.access vault.old vault.new }
    ensures alive { UnlessBroken result (V.alive vault.new) }
{
    match text_constant(m, vault, k) {
        Ok(ty) => list_references(m, vault, ty, n, line),
        Err(answer) => answer,
    }
}

// Makes a vector of a type, which is a text, of so many references.
#[inline]
fn list_references<V: Vault>(m: &mut Machine, vault: &V, ty: u32, n: u32, line: Line) -> Stepped
    requires sound { IsSound m.old }
    requires names { NamesObjects m.old }
    requires text { IsKind Text m.old.objects ty }
    ensures makes { TakesType (V.outside vault.now) (references_listed n line) ty m.old m.new result }
    ensures fails { FailsAsReading (V.outside vault.now) (V.outside vault.now) result m.new }
{
    let form = element_form(m.objects.text_bytes::<V>(ty));
    if is_number(form) {
        return Stepped::Damaged;
    }
    if !take_refs::<V>(m, n) {
        return Stepped::Damaged;
    }
    list_values(m, vault, ty, line)
}

// Pops a lower bound, and pushes a new vector of a type, whose elements are the machine's values.
#[inline]
fn list_values<V: Vault>(m: &mut Machine, vault: &V, ty: u32, line: Line) -> Stepped
    requires sound { IsSound m.old }
    requires names { NamesObjects m.old }
    requires text { IsKind Text m.old.objects ty }
    requires near { AreNear m.old.objects m.old.values.items }
    ensures makes { ListsValues (V.outside vault.now) ty line m.old m.new result }
    ensures fails { FailsAsReading (V.outside vault.now) (V.outside vault.now) result m.new }
{
    let Some(low) = pop_int::<V>(m) else {
        return Stepped::Damaged;
    };
    let made = m.objects.make_list(vault, ty, low, &m.values);
    give_object::<V>(m, made, line)
}
