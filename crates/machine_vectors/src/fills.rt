//! Instructions that make a vector whose elements are all the same.
ghost use Rattle.machine_core.specs.obj_layout.Storing.{SameNumbers};
ghost use Rattle.machine_core.specs.obj_layout.declared.kind.Kind.TheVariants.{Text};
ghost use Rattle.machine_core.specs.swizzle.Reading.{LeavesOutside};
ghost use Rattle.machine_core.specs.heap_places.Places.{IsNear};
ghost use Rattle.machine_core.specs.ps_stepping.Objects.{fill_num as fill_num_of, fill_ref as fill_ref_of};
ghost use Rattle.machine_core.specs.Failing.{FailsAsReading};
ghost use Rattle.machine_core.specs.Holding.{IsSound};
ghost use Rattle.machine_core.specs.Naming.{NamesObjects};
ghost use Rattle.machine_core.specs.Stepped.{Takes, UnlessBroken};
ghost use Rattle.machine_operands.specs.Popping.{IsKind};
ghost use Rattle.machine_vectors.specs.inside.Making.{FillsWith, TakesType, numbers_filled, references_filled};

use machine_core::heap_ops::shape::is_number;
use machine_core::joint_ops::Value;
use machine_core::obj_layout::vault::Vault;
use machine_core::text_forms::forms::element_form;
use machine_core::{Machine, Stepped};
use machine_operands::constants::text_constant;
use machine_operands::forms::kept_as;
use machine_operands::gives::give_object;
use machine_operands::pops::{pop_any, pop_int};
use ps_base::line::Line;

/// Pops a number, an upper bound below it and a lower bound below that, and pushes a new vector whose elements all are the number; its type is the text
/// constant of number k. Trap Bounds where no vector has such bounds. Damaged where these aren't on top, that constant is a unit, the elements of the type
/// are references, or the stack of references is full; breaks off where there is no such constant, its text can't be fetched, or the area has no room.
#[inline]
pub fn fill_num<V: Vault>(m: &mut Machine, vault: &mut V, k: u32, line: Line) -> Stepped
    requires sound { IsSound m.old }
    requires names { NamesObjects m.old }
    requires alive { V.alive vault.old }
    ensures takes { Takes (V.outside vault.old) (V.outside vault.new) (fill_num_of k line) m.old m.new result }
    ensures fails { FailsAsReading (V.outside vault.old) (V.outside vault.new) result m.new }
    ensures leaves { LeavesOutside (V.outside vault.old) (V.outside vault.new) }
    ensures numbers { SameNumbers V.used_words V.directory_at V.most_words V.access vault.old vault.new }
    ensures alive { UnlessBroken result (V.alive vault.new) }
{
    match text_constant(m, vault, k) {
        Ok(ty) => fill_numbers(m, vault, ty, line),
        Err(answer) => answer,
    }
}

// Makes a vector of a type, which is a text, whose elements are numbers.
#[inline]
fn fill_numbers<V: Vault>(m: &mut Machine, vault: &V, ty: u32, line: Line) -> Stepped
    requires sound { IsSound m.old }
    requires names { NamesObjects m.old }
    requires text { IsKind Text m.old.objects ty }
    ensures makes { TakesType (V.outside vault.now) (numbers_filled line) ty m.old m.new result }
    ensures fails { FailsAsReading (V.outside vault.now) (V.outside vault.now) result m.new }
{
    let form = element_form(m.objects.text_bytes::<V>(ty));
    if !is_number(form) {
        return Stepped::Damaged;
    }
    let Some(z) = pop_int::<V>(m) else {
        return Stepped::Damaged;
    };
    let to = kept_as::<V>(form, z);
    fill(m, vault, ty, to, line)
}

/// As `fill_num`, with a reference in place of the number; damaged where the elements of the type are ints or bools.
#[inline]
pub fn fill_ref<V: Vault>(m: &mut Machine, vault: &mut V, k: u32, line: Line) -> Stepped
    requires sound { IsSound m.old }
    requires names { NamesObjects m.old }
    requires alive { V.alive vault.old }
    ensures takes { Takes (V.outside vault.old) (V.outside vault.new) (fill_ref_of k line) m.old m.new result }
    ensures fails { FailsAsReading (V.outside vault.old) (V.outside vault.new) result m.new }
    ensures leaves { LeavesOutside (V.outside vault.old) (V.outside vault.new) }
    ensures numbers { SameNumbers V.used_words V.directory_at V.most_words V.access vault.old vault.new }
    ensures alive { UnlessBroken result (V.alive vault.new) }
{
    match text_constant(m, vault, k) {
        Ok(ty) => fill_references(m, vault, ty, line),
        Err(answer) => answer,
    }
}

// Makes a vector of a type, which is a text, whose elements are references.
#[inline]
fn fill_references<V: Vault>(m: &mut Machine, vault: &V, ty: u32, line: Line) -> Stepped
    requires sound { IsSound m.old }
    requires names { NamesObjects m.old }
    requires text { IsKind Text m.old.objects ty }
    ensures makes { TakesType (V.outside vault.now) (references_filled line) ty m.old m.new result }
    ensures fails { FailsAsReading (V.outside vault.now) (V.outside vault.now) result m.new }
{
    let form = element_form(m.objects.text_bytes::<V>(ty));
    if is_number(form) {
        return Stepped::Damaged;
    }
    let Some(to) = pop_any::<V>(m) else {
        return Stepped::Damaged;
    };
    fill(m, vault, ty, Value::Ref(to), line)
}

// Pops an upper and a lower bound, and pushes a new vector of a type whose elements all are this value.
#[inline]
fn fill<V: Vault>(m: &mut Machine, vault: &V, ty: u32, to: Value, line: Line) -> Stepped
    requires sound { IsSound m.old }
    requires names { NamesObjects m.old }
    requires text { IsKind Text m.old.objects ty }
    requires near { IsNear m.old.objects to }
    ensures makes { FillsWith (V.outside vault.now) ty to line m.old m.new result }
    ensures fails { FailsAsReading (V.outside vault.now) (V.outside vault.now) result m.new }
{
    let Some(high) = pop_int::<V>(m) else {
        return Stepped::Damaged;
    };
    let Some(low) = pop_int::<V>(m) else {
        return Stepped::Damaged;
    };
    let made = m.objects.make_vector(vault, ty, low, high, to);
    give_object::<V>(m, made, line)
}
