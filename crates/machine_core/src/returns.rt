//! Coming back to a body that waits.
ghost use Rattle.std.specs.Prelude.{◌≢◌};
ghost use Rattle.ps_stepping.specs.Machine.{returned as returned_of};
ghost use Rattle.machine_core.specs.Calling.{Resumes};
ghost use Rattle.machine_core.specs.Holding.{IsSound};
ghost use Rattle.machine_core.specs.Stepped.{Takes};
ghost use Rattle.machine_core.specs.inside.Taking.{Leaves};
ghost use Rattle.machine_core.specs.declared.stepped.Stepped.TheVariants.{Breaks};

use crate::ends::halt;
use crate::machine::Machine;
use crate::run_end::RunEnd;
use crate::stacks::{object, pop_num, pop_ref, push_num, push_ref};
use crate::stepped::Stepped;
use joint_ops::obj_layout::vault::Vault;

/// Comes back to the last body that waits, with nothing, a number or a reference, which is pushed there; where none waits the run is at its end.
#[inline(always)]
pub fn returned<V: Vault>(m: &mut Machine, kind: u32) -> Stepped
    requires { IsSound m.old }
    ensures takes { (v : V) → Takes (V.outside v) (V.outside v) (returned_of kind) m.old m.new result }
    ensures goes { result ≢ Breaks }
{
    match kind {
        0 => return_nothing::<V>(m),
        1 => return_num::<V>(m),
        2 => return_ref::<V>(m),
        _ => Stepped::Damaged,
    }
}

#[inline(always)]
fn return_nothing<V: Vault>(m: &mut Machine) -> Stepped
    requires { IsSound m.old }
    ensures takes { (v : V) → Takes (V.outside v) (V.outside v) (returned_of 0) m.old m.new result }
    ensures goes { result ≢ Breaks }
{
    if resume::<V>(m) {
        return Stepped::Quiet;
    }
    halt::<V>(m, RunEnd::Done)
}

#[inline(always)]
fn return_num<V: Vault>(m: &mut Machine) -> Stepped
    requires { IsSound m.old }
    ensures takes { (v : V) → Takes (V.outside v) (V.outside v) (returned_of 1) m.old m.new result }
    ensures goes { result ≢ Breaks }
{
    let Some(z) = pop_num::<V>(m) else {
        return Stepped::Damaged;
    };
    if resume::<V>(m) {
        return push_num::<V>(m, z);
    }
    halt::<V>(m, RunEnd::Done)
}

#[inline(always)]
fn return_ref<V: Vault>(m: &mut Machine) -> Stepped
    requires { IsSound m.old }
    ensures takes { (v : V) → Takes (V.outside v) (V.outside v) (returned_of 2) m.old m.new result }
    ensures goes { result ≢ Breaks }
{
    let Some(word) = pop_ref::<V>(m) else {
        return Stepped::Damaged;
    };
    if resume::<V>(m) {
        return push_ref::<V>(m, object(word));
    }
    halt::<V>(m, RunEnd::Done)
}

// The last body that waits goes on. False where none does.
#[inline(always)]
fn resume<V: Vault>(m: &mut Machine) -> bool
    requires { IsSound m.old }
    ensures leaves { Leaves m.old m.new }
    ensures resumes { (v : V) → Resumes (V.outside v) m.old m.new result }
{
    if m.callers.is_empty() {
        return false;
    }
    let caller = m.callers.take_last();
    m.code = caller.code;
    m.place = caller.place;
    m.frame = caller.frame;
    m.scope = caller.scope;
    m.at = caller.at;
    m.nums.close(caller.nums, 0);
    m.refs.close(caller.refs, 1);
    true
}
