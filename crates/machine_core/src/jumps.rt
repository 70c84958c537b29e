ghost use Rattle.std.specs.Prelude.{◌≡◌, if◌then◌else◌, ◌≢◌};
ghost use Rattle.ps_stepping.specs.ps_meaning.Meaning.{spent};
ghost use Rattle.ps_stepping.specs.ps_heap.Values.{is_one as is_one_of};
ghost use Rattle.ps_stepping.specs.Machine.{on, forward as forward_of, back as back_of, turn_to as turn_to_of, pop_num as pop_num_of};
ghost use Rattle.machine_core.specs.Holding.{IsSound};
ghost use Rattle.machine_core.specs.Stepped.{Takes};
ghost use Rattle.machine_core.specs.declared.stepped.Stepped.TheVariants.{Breaks};

use crate::ends::halt;
use crate::machine::Machine;
use crate::run_end::RunEnd;
use crate::stacks::{pop_num, top_num};
use crate::stepped::Stepped;
use joint_ops::obj_layout::vault::Vault;

/// Whether a number stands for true.
#[inline(always)]
pub fn is_one(z: i32) -> bool
    ensures { result ≡ is_one_of z }
{
    z > 0
}

/// Goes on quietly after the instruction.
#[inline(always)]
pub fn quiet<V: Vault>(m: &Machine) -> Stepped
    requires { IsSound m.now }
    ensures takes { (v : V) → Takes (V.outside v) (V.outside v) on m.now m.now result }
    ensures goes { result ≢ Breaks }
{
    let _ = m;
    Stepped::Quiet
}

/// Goes on at an offset after that of the instruction itself.
#[inline(always)]
pub fn forward<V: Vault>(m: &mut Machine, own: u32, to: u32) -> Stepped
    requires { IsSound m.old }
    ensures takes { (v : V) → Takes (V.outside v) (V.outside v) (forward_of own to) m.old m.new result }
    ensures goes { result ≢ Breaks }
{
    if to <= own {
        return Stepped::Damaged;
    }
    m.at = to;
    Stepped::Quiet
}

/// Takes a turn, where one is left, and goes on at an offset.
#[inline(always)]
pub fn turn_to<V: Vault>(m: &mut Machine, to: u32) -> Stepped
    requires { IsSound m.old }
    ensures takes { (v : V) → Takes (V.outside v) (V.outside v) (λ c. turn_to_of (spent c.store) to c) m.old m.new result }
    ensures goes { result ≢ Breaks }
{
    if m.turns == 0 {
        return halt::<V>(m, RunEnd::OutOfTurns);
    }
    m.turns -= 1;
    m.at = to;
    Stepped::Turns
}

/// Takes a turn and goes back to an offset before that of the instruction itself.
#[inline(always)]
pub fn back<V: Vault>(m: &mut Machine, own: u32, to: u32) -> Stepped
    requires { IsSound m.old }
    ensures takes { (v : V) → Takes (V.outside v) (V.outside v) (back_of own to) m.old m.new result }
    ensures goes { result ≢ Breaks }
{
    if to >= own {
        return Stepped::Damaged;
    }
    turn_to::<V>(m, to)
}

/// Pops a bool, and jumps where it is false.
#[inline(always)]
pub fn jump_false<V: Vault>(m: &mut Machine, own: u32, to: u32) -> Stepped
    requires { IsSound m.old }
    ensures takes { (v : V) → Takes (V.outside v) (V.outside v) (λ c. pop_num_of c (λ z d. if is_one_of z then on d else forward_of own to d)) m.old m.new result }
    ensures goes { result ≢ Breaks }
{
    let Some(z) = pop_num::<V>(m) else {
        return Stepped::Damaged;
    };
    if is_one(z) {
        return quiet::<V>(m);
    }
    forward::<V>(m, own, to)
}

/// Pops a bool, and jumps where it is true.
#[inline(always)]
pub fn jump_true<V: Vault>(m: &mut Machine, own: u32, to: u32) -> Stepped
    requires { IsSound m.old }
    ensures takes { (v : V) → Takes (V.outside v) (V.outside v) (λ c. pop_num_of c (λ z d. if is_one_of z then forward_of own to d else on d)) m.old m.new result }
    ensures goes { result ≢ Breaks }
{
    let Some(z) = pop_num::<V>(m) else {
        return Stepped::Damaged;
    };
    if is_one(z) {
        return forward::<V>(m, own, to);
    }
    quiet::<V>(m)
}

/// Pops a bool, and where it is true goes back for another turn.
#[inline(always)]
pub fn again<V: Vault>(m: &mut Machine, own: u32, to: u32) -> Stepped
    requires { IsSound m.old }
    ensures takes { (v : V) → Takes (V.outside v) (V.outside v) (λ c. pop_num_of c (λ z d. if is_one_of z then back_of own to d else on d)) m.old m.new result }
    ensures goes { result ≢ Breaks }
{
    let Some(z) = pop_num::<V>(m) else {
        return Stepped::Damaged;
    };
    if is_one(z) {
        return back::<V>(m, own, to);
    }
    quiet::<V>(m)
}

/// Drops the number on top.
#[inline(always)]
pub fn drop_num<V: Vault>(m: &mut Machine) -> Stepped
    requires { IsSound m.old }
    ensures takes { (v : V) → Takes (V.outside v) (V.outside v) (λ c. pop_num_of c (λ z d. on d)) m.old m.new result }
    ensures goes { result ≢ Breaks }
{
    match pop_num::<V>(m) {
        Some(_) => quiet::<V>(m),
        None => Stepped::Damaged,
    }
}

/// Pops a true, and jumps over the other operand at a false, which stays.
#[inline(always)]
pub fn and<V: Vault>(m: &mut Machine, own: u32, to: u32) -> Stepped
    requires { IsSound m.old }
    ensures takes { (v : V) → Takes (V.outside v) (V.outside v) (λ c. pop_num_of c (λ z d. if is_one_of z then on d else forward_of own to c)) m.old m.new result }
    ensures goes { result ≢ Breaks }
{
    let Some(z) = top_num::<V>(m) else {
        return Stepped::Damaged;
    };
    if is_one(z) {
        return drop_num::<V>(m);
    }
    forward::<V>(m, own, to)
}

/// Pops a false, and jumps over the other operand at a true, which stays.
#[inline(always)]
pub fn or<V: Vault>(m: &mut Machine, own: u32, to: u32) -> Stepped
    requires { IsSound m.old }
    ensures takes { (v : V) → Takes (V.outside v) (V.outside v) (λ c. pop_num_of c (λ z d. if is_one_of z then forward_of own to c else on d)) m.old m.new result }
    ensures goes { result ≢ Breaks }
{
    let Some(z) = top_num::<V>(m) else {
        return Stepped::Damaged;
    };
    if is_one(z) {
        return forward::<V>(m, own, to);
    }
    drop_num::<V>(m)
}
