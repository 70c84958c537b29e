ghost use Rattle.std.specs.Prelude.{◌≡◌, ◌≤◌, ◌<◌, length, true, false};
ghost use Rattle.machine_core.specs.ps_stepping.Config.{frame_words};
ghost use Rattle.machine_core.specs.Holding.{IsSound};
ghost use Rattle.machine_core.specs.declared.stepped.Stepped.TheVariants.{Breaks};
ghost use Rattle.machine_operands.specs.Giving.{failed_of, failed_in, broken_of, broken_in, BreaksWith, GivesBound, GivesFlag, GivesText, GivesObject, GivesStructure, GivesNumber, GivesReference, Changes};

use machine_core::ends::trapped;
use machine_core::joint_ops::{OpFault, Value};
use machine_core::obj_layout::vault::Vault;
use machine_core::stacks::{push_num, push_ref, put_ref};
use machine_core::swizzle::fault::SwizzleFault;
use machine_core::values::number;
use machine_core::{FRAME_WORDS, Machine, Stepped};
use ps_base::line::Line;

/// Whether one more reference may be pushed.
#[inline(always)]
pub fn has_room(m: &Machine) -> bool
    ensures room { result ≡ true → length m.now.refs.own < frame_words }
    ensures full { result ≡ false → frame_words ≤ length m.now.refs.own }
{
    m.refs.len() < FRAME_WORDS
}

/// Breaks off with a fault of an operation.
#[inline(never)]
pub fn broke<V: Vault>(m: &mut Machine, fault: SwizzleFault) -> Stepped
    requires { IsSound m.old }
    ensures answer { result ≡ Breaks }
    ensures left { m.new ≡ record m.old { fault = fault } }
    ensures breaks { (v w : V) → BreaksWith (V.outside v) (V.outside w) m.old m.new result fault }
{
    m.fault = fault;
    Stepped::Breaks
}

// An operation that failed: its trap, or it broke off; where the stack has no room either, that comes first.
#[inline(never)]
fn failed<V: Vault>(m: &mut Machine, fault: OpFault, line: Line, room: bool) -> Stepped
    requires { IsSound m.old }
    ensures answer { result ≡ failed_of fault room }
    ensures left { m.new ≡ failed_in fault line room m.old }
    ensures sound { IsSound m.new }
{
    match fault {
        OpFault::Trap(trap) => trapped::<V>(m, trap, line),
        OpFault::Swizzle(fault) => {
            if !room {
                return Stepped::Damaged;
            }
            m.fault = fault;
            Stepped::Breaks
        }
    }
}

// An operation that has no trap broke off.
#[inline(never)]
fn broken(m: &mut Machine, fault: OpFault) -> Stepped
    requires { IsSound m.old }
    ensures answer { result ≡ broken_of fault }
    ensures left { m.new ≡ broken_in fault m.old }
    ensures sound { IsSound m.new }
{
    match fault {
        OpFault::Trap(_) => Stepped::Damaged,
        OpFault::Swizzle(fault) => {
            m.fault = fault;
            Stepped::Breaks
        }
    }
}

/// Pushes a text that was made, or ends in the operation's trap; where there was no room for it in the area it breaks off, but is damaged where the
/// stack has no room either.
#[inline(always)]
pub fn give_text<V: Vault>(m: &mut Machine, made: Result<u32, OpFault>, line: Line) -> Stepped
    requires { IsSound m.old }
    ensures { (v : V) → GivesText (V.outside v) line m.old m.new result made }
{
    match made {
        Ok(at) => push_ref::<V>(m, Some(at)),
        Err(fault) => {
            let room = has_room(m);
            failed::<V>(m, fault, line, room)
        }
    }
}

/// As `give_text`, for an object.
#[inline(always)]
pub fn give_object<V: Vault>(m: &mut Machine, made: Result<u32, OpFault>, line: Line) -> Stepped
    requires { IsSound m.old }
    ensures { (v : V) → GivesObject (V.outside v) line m.old m.new result made }
{
    match made {
        Ok(at) => push_ref::<V>(m, Some(at)),
        Err(fault) => {
            let room = has_room(m);
            failed::<V>(m, fault, line, room)
        }
    }
}

/// Pushes a structure that was made where the stack has room, or breaks off. Its making has no trap.
#[inline(always)]
pub fn give_structure<V: Vault>(m: &mut Machine, made: Result<u32, OpFault>) -> Stepped
    requires sound { IsSound m.old }
    requires room { length m.old.refs.own < frame_words }
    ensures { (v w : V) → GivesStructure (V.outside v) (V.outside w) m.old m.new result made }
{
    match made {
        Ok(at) => put_ref::<V>(m, Some(at)),
        Err(fault) => broken(m, fault),
    }
}

/// Pushes a number that was read, or ends in the operation's trap, or breaks off; damaged where it is no number.
#[inline(always)]
pub fn give_number<V: Vault>(m: &mut Machine, got: Result<Value, OpFault>, line: Line) -> Stepped
    requires { IsSound m.old }
    ensures { (v w : V) → GivesNumber (V.outside v) (V.outside w) m.old m.new result line got }
{
    match got {
        Ok(Value::Num(z)) => push_num::<V>(m, z),
        Ok(Value::Flag(flag)) => push_num::<V>(m, number(flag)),
        Ok(Value::Ref(_)) => Stepped::Damaged,
        Err(fault) => failed::<V>(m, fault, line, true),
    }
}

/// Pushes a reference that was read, or ends in the operation's trap, or breaks off; damaged where it is none.
#[inline(always)]
pub fn give_reference<V: Vault>(m: &mut Machine, got: Result<Value, OpFault>, line: Line) -> Stepped
    requires { IsSound m.old }
    ensures { (v w : V) → GivesReference (V.outside v) (V.outside w) m.old m.new result line got }
{
    match got {
        Ok(Value::Ref(to)) => push_ref::<V>(m, to),
        Ok(_) => Stepped::Damaged,
        Err(fault) => failed::<V>(m, fault, line, true),
    }
}

/// Pushes a bound that was read, or breaks off. Its reading has no trap.
#[inline(always)]
pub fn give_bound<V: Vault>(m: &mut Machine, bound: Result<i32, OpFault>) -> Stepped
    requires { IsSound m.old }
    ensures { (v w : V) → GivesBound (V.outside v) (V.outside w) m.old m.new result bound }
{
    match bound {
        Ok(z) => push_num::<V>(m, z),
        Err(fault) => broken(m, fault),
    }
}

/// Pushes a bool that was found, or breaks off. Its finding has no trap.
#[inline(always)]
pub fn give_flag<V: Vault>(m: &mut Machine, got: Result<bool, OpFault>) -> Stepped
    requires { IsSound m.old }
    ensures { (v w : V) → GivesFlag (V.outside v) (V.outside w) m.old m.new result got }
{
    match got {
        Ok(flag) => push_num::<V>(m, number(flag)),
        Err(fault) => broken(m, fault),
    }
}

/// Goes on after what was written, or ends in the operation's trap, or breaks off.
#[inline(always)]
pub fn done<V: Vault>(m: &mut Machine, written: Result<(), OpFault>, line: Line) -> Stepped
    requires { IsSound m.old }
    ensures { (v w : V) → Changes (V.outside v) (V.outside w) m.old m.new result line written }
{
    match written {
        Ok(()) => Stepped::Quiet,
        Err(fault) => failed::<V>(m, fault, line, true),
    }
}
