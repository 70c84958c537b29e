ghost use Rattle.std.specs.Prelude.{◌≡◌, ◌^◌, ◌+ℤ◌, ◌+◌, ◌<◌, MatchOption, pos, true, false, ◌≢◌};
ghost use Rattle.ps_stepping.specs.ps_meaning.Loops.{goes_on as goes_on_of};
ghost use Rattle.ps_stepping.specs.ps_heap.Operators.{is_same};
ghost use Rattle.ps_stepping.specs.Machine.{with_num, back as back_of, started as started_of, counted as counted_of, for_start as for_start_of, for_next as for_next_of};
ghost use Rattle.machine_core.specs.Holding.{IsSound};
ghost use Rattle.machine_core.specs.Stepped.{Takes};
ghost use Rattle.machine_core.specs.declared.stepped.Stepped.TheVariants.{Breaks};

use crate::ends::trapped;
use crate::jumps::{back, forward, quiet, turn_to};
use crate::machine::Machine;
use crate::stacks::{num_at, set_num_at};
use crate::stepped::Stepped;
use joint_ops::obj_layout::vault::Vault;
use ps_base::line::Line;
use ps_base::trap::Trap;

// Whether a loop goes on with this number.
#[inline(always)]
fn goes_on(limit: i32, step: i32, z: i32) -> bool
    ensures { result ≡ goes_on_of limit step z }
{
    if step >= 0 { z <= limit } else { limit <= z }
}

// Whether a loop with this step would never move.
#[inline(always)]
fn is_still(step: i32) -> bool
    ensures { result ≡ is_same step (pos 0) }
{
    step == 0
}

// The next number, where it is an int and the loop goes on with it.
#[inline(always)]
fn next_of(control: i32, limit: i32, step: i32) -> Option<i32>
    ensures { MatchOption result (goes_on_of limit step (control +ℤ step) ≡ false) (λ z. (z ≡ control +ℤ step) × (goes_on_of limit step z ≡ true)) }
{
    match control.checked_add(step) {
        Some(z) => {
            if goes_on(limit, step, z) {
                Some(z)
            } else {
                None
            }
        }
        None => None,
    }
}

// Goes into the first turn with this number, or past the loop.
#[inline(always)]
fn started<V: Vault>(
    m: &mut Machine,
    own: u32,
    to: u32,
    line: Line,
    control: i32,
    limit: i32,
    step: i32,
) -> Stepped
    requires { IsSound m.old }
    ensures takes { (v : V) → Takes (V.outside v) (V.outside v) (started_of own to line control limit step) m.old m.new result }
    ensures goes { result ≢ Breaks }
{
    if is_still(step) {
        return trapped::<V>(m, Trap::Bounds, line);
    }
    if goes_on(limit, step, control) {
        let behind = m.at;
        return turn_to::<V>(m, behind);
    }
    forward::<V>(m, own, to)
}

/// Begins a loop by `for`, whose control, limit and step stand in three locals from a slot on.
#[inline(always)]
pub fn for_start<V: Vault>(m: &mut Machine, own: u32, slot: usize, to: u32, line: Line) -> Stepped
    requires sound { IsSound m.old }
    requires small { slot < 2 ^ 32 }
    ensures takes { (v : V) → Takes (V.outside v) (V.outside v) (for_start_of own slot to line) m.old m.new result }
    ensures goes { result ≢ Breaks }
{
    let Some(step) = num_at::<V>(m, slot + 2) else {
        return Stepped::Damaged;
    };
    let Some(limit) = num_at::<V>(m, slot + 1) else {
        return Stepped::Damaged;
    };
    let Some(control) = num_at::<V>(m, slot) else {
        return Stepped::Damaged;
    };
    started::<V>(m, own, to, line, control, limit, step)
}

// Goes back with the next number.
#[inline(always)]
fn back_with<V: Vault>(m: &mut Machine, own: u32, slot: usize, to: u32, z: i32) -> Stepped
    requires sound { IsSound m.old }
    requires slot { slot < m.old.frame.nums }
    ensures takes { (v : V) → Takes (V.outside v) (V.outside v) (λ c. back_of own to (with_num c slot z)) m.old m.new result }
    ensures goes { result ≢ Breaks }
{
    set_num_at::<V>(m, slot, z);
    back::<V>(m, own, to)
}

// Goes into the next turn, or past the loop.
#[inline(always)]
fn counted<V: Vault>(
    m: &mut Machine,
    own: u32,
    slot: usize,
    to: u32,
    limit: i32,
    step: i32,
    control: i32,
) -> Stepped
    requires sound { IsSound m.old }
    requires slot { slot < m.old.frame.nums }
    ensures takes { (v : V) → Takes (V.outside v) (V.outside v) (counted_of own slot to limit step (control +ℤ step)) m.old m.new result }
    ensures goes { result ≢ Breaks }
{
    match next_of(control, limit, step) {
        Some(z) => back_with::<V>(m, own, slot, to, z),
        None => quiet::<V>(m),
    }
}

/// Goes on with a loop by `for`.
#[inline(always)]
pub fn for_next<V: Vault>(m: &mut Machine, own: u32, slot: usize, to: u32) -> Stepped
    requires sound { IsSound m.old }
    requires small { slot < 2 ^ 32 }
    ensures takes { (v : V) → Takes (V.outside v) (V.outside v) (for_next_of own slot to) m.old m.new result }
    ensures goes { result ≢ Breaks }
{
    let Some(step) = num_at::<V>(m, slot + 2) else {
        return Stepped::Damaged;
    };
    let Some(limit) = num_at::<V>(m, slot + 1) else {
        return Stepped::Damaged;
    };
    let Some(control) = num_at::<V>(m, slot) else {
        return Stepped::Damaged;
    };
    counted::<V>(m, own, slot, to, limit, step, control)
}
