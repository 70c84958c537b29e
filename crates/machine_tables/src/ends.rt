//! How calls on tables end after the operation.
ghost use Rattle.std.specs.Prelude.{◌≡◌, ◌≢◌};
ghost use Rattle.machine_core.specs.Holding.{IsSound};
ghost use Rattle.machine_core.specs.Stepped.{Takes};
ghost use Rattle.machine_core.specs.declared.stepped.Stepped.TheVariants.{Breaks};
ghost use Rattle.machine_tables.specs.inside.Ends.{EndsEnter, GivesCount, GivesFound, as_reference, count_pushed};

use machine_core::ends::trapped;
use machine_core::joint_ops::{OpFault, Value};
use machine_core::obj_layout::vault::Vault;
use machine_core::stacks::push_num;
use machine_core::{Machine, Stepped};
use machine_operands::gives::{broke, give_reference};
use ps_base::line::Line;
use ps_base::trap::Trap;

/// Pushes an object that was found, or nil; or ends in the operation's trap, or breaks off.
#[inline(always)]
pub fn give_found<V: Vault>(
    m: &mut Machine,
    got: Result<Option<u32>, OpFault>,
    line: Line,
) -> Stepped
    requires { IsSound m.old }
    ensures { (v w : V) → GivesFound (V.outside v) (V.outside w) m.old m.new result line got }
{
    let value = reference(got);
    give_reference::<V>(m, value, line)
}

// What was found as a value.
fn reference(got: Result<Option<u32>, OpFault>) -> Result<Value, OpFault>
    ensures { result ≡ as_reference got }
{
    match got {
        Ok(to) => Ok(Value::Ref(to)),
        Err(fault) => Err(fault),
    }
}

/// Pushes a number of pairs. Trap Overflow where it is no int; or it ends in the operation's trap, or breaks off.
#[inline(always)]
pub fn give_count<V: Vault>(m: &mut Machine, counted: Result<u32, OpFault>, line: Line) -> Stepped
    requires { IsSound m.old }
    ensures { (v : V) → GivesCount (V.outside v) m.old m.new result line counted }
{
    match counted {
        Ok(count) => push_count::<V>(m, count, line),
        Err(OpFault::Trap(trap)) => trapped::<V>(m, trap, line),
        Err(OpFault::Swizzle(fault)) => broke::<V>(m, fault),
    }
}

// Pushes a number of pairs where it is an int.
#[inline(always)]
fn push_count<V: Vault>(m: &mut Machine, count: u32, line: Line) -> Stepped
    requires { IsSound m.old }
    ensures takes { (v : V) → Takes (V.outside v) (V.outside v) (count_pushed line count) m.old m.new result }
    ensures goes { result ≢ Breaks }
{
    let number = count.cast_signed();
    if number < 0 {
        return trapped::<V>(m, Trap::Overflow, line);
    }
    push_num::<V>(m, number)
}

/// Goes on after a pair was entered; or it ends in the operation's trap, or breaks off.
#[inline(always)]
pub fn end_enter<V: Vault>(m: &mut Machine, done: Result<(), OpFault>, line: Line) -> Stepped
    requires { IsSound m.old }
    ensures { (v w : V) → EndsEnter (V.outside v) (V.outside w) m.old m.new result line done }
{
    match done {
        Ok(()) => Stepped::Quiet,
        Err(OpFault::Trap(trap)) => trapped::<V>(m, trap, line),
        Err(OpFault::Swizzle(fault)) => broke::<V>(m, fault),
    }
}
