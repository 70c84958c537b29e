//! Traps of operations on fields. An operation names what it is asked of an object, whatever that is; an instruction has the trap only where the object is nil,
//! a structure or a table, and the field lies in the instruction's row.
ghost use Rattle.std.specs.Prelude.{◌≢◌, IfSome, MatchBool};
ghost use Rattle.machine_core.specs.obj_layout.Storing.{SameNumbers};
ghost use Rattle.machine_core.specs.swizzle.Heap.{IsHeld};
ghost use Rattle.machine_core.specs.swizzle.Reading.{LeavesOutside};
ghost use Rattle.machine_core.specs.Failing.{FailsAsReading};
ghost use Rattle.machine_core.specs.Holding.{IsSound};
ghost use Rattle.machine_core.specs.Naming.{NamesObjects};
ghost use Rattle.machine_core.specs.Stepped.{UnlessBroken};
ghost use Rattle.machine_core.specs.declared.stepped.Stepped.TheVariants.{Breaks};
ghost use Rattle.machine_structures.specs.inside.Fields.{IsObject, IsNoObject, IsInRow, TrapsAt, TrapsOf};

use machine_core::ends::trapped;
use machine_core::joint_ops::values::Sort;
use machine_core::obj_layout::vault::Vault;
use machine_core::text_forms::forms::Form;
use machine_core::{Machine, Stepped};
use machine_operands::gives::broke;
use ps_base::line::Line;
use ps_base::trap::Trap;

/// A field of a class: the code object, the number of its constant that is the text of the class, and the field's own number.
#[derive(Clone, Copy)]
pub(crate) struct Field {
    pub code: u32,
    pub constant: u32,
    pub number: u32,
}

/// The row that a field lies in: with ints and bools, or with references.
#[derive(Clone, Copy)]
pub(crate) enum Row {
    Numbers,
    References,
}

// Whether an object is nil, a structure or a table.
#[inline(always)]
fn is_object<V: Vault>(m: &Machine, object: Option<u32>) -> bool
    requires { IfSome object (IsHeld m.now.objects) }
    ensures { (v : V) → MatchBool result (IsObject m.now.objects (V.outside v) object) (IsNoObject m.now.objects (V.outside v) object) }
{
    matches!(m.objects.sort_of::<V>(object), Sort::Nil | Sort::Pointer)
}

// Whether a field of this form lies in a row.
#[inline(always)]
fn is_in_row(row: Row, form: Form) -> bool
    ensures { IsInRow row form result }
{
    match row {
        Row::Numbers => !matches!(form, Form::Reference),
        Row::References => matches!(form, Form::Reference),
    }
}

/// The trap of an operation on a field of this object; damaged where that is neither nil nor a structure nor a table.
#[inline(never)]
pub(crate) fn object_trapped<V: Vault>(
    m: &mut Machine,
    object: Option<u32>,
    trap: Trap,
    line: Line,
) -> Stepped
    requires sound { IsSound m.old }
    requires held { IfSome object (IsHeld m.old.objects) }
    ensures traps { (v w : V) → TrapsOf (V.outside v) (V.outside w) object trap line m.old m.new result }
    ensures goes { result ≢ Breaks }
{
    if !is_object::<V>(m, object) {
        return Stepped::Damaged;
    }
    trapped::<V>(m, trap, line)
}

/// The trap of a reading of a field of this object. Damaged where that is neither nil nor a structure nor a table, or the field lies in the other row; it breaks off
/// where that can't be found out.
#[inline(never)]
pub(crate) fn field_trapped<V: Vault>(
    m: &mut Machine,
    vault: &mut V,
    object: Option<u32>,
    field: Field,
    row: Row,
    trap: Trap,
    line: Line,
) -> Stepped
    requires sound { IsSound m.old }
    requires names { NamesObjects m.old }
    requires alive { V.alive vault.old }
    requires held { IfSome object (IsHeld m.old.objects) }
    requires code { IsHeld m.old.objects field.code }
    ensures traps { TrapsAt (V.outside vault.old) (V.outside vault.new) field row object trap line m.old m.new result }
    ensures fails { FailsAsReading (V.outside vault.old) (V.outside vault.new) result m.new }
    ensures leaves { LeavesOutside (V.outside vault.old) (V.outside vault.new) }
    ensures numbers { SameNumbers V.used_words V.directory_at V.most_words V.access vault.old vault.new }
    ensures alive { UnlessBroken result (V.alive vault.new) }
{
    if !is_object::<V>(m, object) {
        return Stepped::Damaged;
    }
    let got = m
        .objects
        .field_form(vault, field.code, field.constant, field.number);
    match got {
        Ok(form) => {
            if !is_in_row(row, form) {
                return Stepped::Damaged;
            }
            trapped::<V>(m, trap, line)
        }
        Err(fault) => broke::<V>(m, fault),
    }
}
