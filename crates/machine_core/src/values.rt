ghost use Rattle.std.specs.Prelude.{◌≡◌, not, if◌then◌else◌, ◌≢◌, length, ◌<◌, ◌≤◌, ◌+◌};
ghost use Rattle.ps_stepping.specs.ps_heap.Answers.{answer_of};
ghost use Rattle.ps_stepping.specs.ps_heap.Operators.{neg_of, arith_of, relation_of};
ghost use Rattle.ps_stepping.specs.ps_heap.Values.{is_one as is_one_of, number_of};
ghost use Rattle.ps_stepping.specs.Config.{frame_words};
ghost use Rattle.ps_stepping.specs.Machine.{on, put_num as put_num_of, push_num as push_num_of, push_ref as push_ref_of, pop_num as pop_num_of, pop_ref as pop_ref_of, is_num_slot, is_ref_slot, with_num, with_ref, answered as answered_of, one_num as one_num_of, two_nums as two_nums_of, test as test_of, Stuck};
ghost use Rattle.machine_core.specs.Holding.{IsSound};
ghost use Rattle.machine_core.specs.Stepped.{Takes};
ghost use Rattle.machine_core.specs.inside.Taking.{TakesTwo, TakesRef};
ghost use Rattle.machine_core.specs.declared.stepped.Stepped.TheVariants.{Breaks};

use crate::ends::trapped;
use crate::jumps::{is_one, quiet};
use crate::machine::Machine;
use crate::stacks::{
    num_at, object, pop_num, pop_ref, push_num, push_ref, put_for_two, put_num, ref_at, set_num_at,
    set_ref_at, top_num, top_ref, top_two,
};
use crate::stepped::Stepped;
use joint_ops::obj_layout::vault::Vault;
use ps_base::line::Line;
use ps_base::operator::{Operator, Relation};
use ps_base::trap::Trap;
use ps_stepping::ps_heap::operators;

/// Pushes a local among the numbers.
#[inline(always)]
pub fn get_num<V: Vault>(m: &mut Machine, slot: usize) -> Stepped
    requires { IsSound m.old }
    ensures takes { (v : V) → Takes (V.outside v) (V.outside v) (λ c. if is_num_slot c slot then push_num_of (c.locals.nums slot) c else Stuck) m.old m.new result }
    ensures goes { result ≢ Breaks }
{
    match num_at::<V>(m, slot) {
        Some(z) => push_num::<V>(m, z),
        None => Stepped::Damaged,
    }
}

/// Pushes a local among the references.
#[inline(always)]
pub fn get_ref<V: Vault>(m: &mut Machine, slot: usize) -> Stepped
    requires { IsSound m.old }
    ensures takes { (v : V) → Takes (V.outside v) (V.outside v) (λ c. if is_ref_slot c slot then push_ref_of (c.locals.refs slot) c else Stuck) m.old m.new result }
    ensures goes { result ≢ Breaks }
{
    match ref_at::<V>(m, slot) {
        Some(word) => push_ref::<V>(m, object(word)),
        None => Stepped::Damaged,
    }
}

// Writes a local among the numbers, where the frame has it.
#[inline(always)]
fn store_num<V: Vault>(m: &mut Machine, slot: usize, z: i32) -> Stepped
    requires { IsSound m.old }
    ensures takes { (v : V) → Takes (V.outside v) (V.outside v) (λ c. if is_num_slot c slot then on (with_num c slot z) else Stuck) m.old m.new result }
    ensures goes { result ≢ Breaks }
{
    if slot >= m.frame.nums as usize {
        return Stepped::Damaged;
    }
    set_num_at::<V>(m, slot, z);
    Stepped::Quiet
}

// Writes a local among the references, where the frame has it.
#[inline(always)]
fn store_ref<V: Vault>(m: &mut Machine, slot: usize, to: Option<u32>) -> Stepped
    requires { IsSound m.old }
    ensures takes { (v : V) → TakesRef (V.outside v) (V.outside v) (λ value c. if is_ref_slot c slot then on (with_ref c slot value) else Stuck) m.old to m.new result }
    ensures goes { result ≢ Breaks }
{
    if slot >= m.frame.refs as usize {
        return Stepped::Damaged;
    }
    set_ref_at::<V>(m, slot, to)
}

/// Pops a number into a local.
#[inline(always)]
pub fn set_num<V: Vault>(m: &mut Machine, slot: usize) -> Stepped
    requires { IsSound m.old }
    ensures takes { (v : V) → Takes (V.outside v) (V.outside v) (λ c. pop_num_of c (λ z d. if is_num_slot d slot then on (with_num d slot z) else Stuck)) m.old m.new result }
    ensures goes { result ≢ Breaks }
{
    match pop_num::<V>(m) {
        Some(z) => store_num::<V>(m, slot, z),
        None => Stepped::Damaged,
    }
}

/// Pops a reference into a local.
#[inline(always)]
pub fn set_ref<V: Vault>(m: &mut Machine, slot: usize) -> Stepped
    requires { IsSound m.old }
    ensures takes { (v : V) → Takes (V.outside v) (V.outside v) (λ c. pop_ref_of c (λ value d. if is_ref_slot d slot then on (with_ref d slot value) else Stuck)) m.old m.new result }
    ensures goes { result ≢ Breaks }
{
    match pop_ref::<V>(m) {
        Some(word) => store_ref::<V>(m, slot, object(word)),
        None => Stepped::Damaged,
    }
}

/// The number of a bool.
#[inline(always)]
pub fn number(flag: bool) -> i32
    ensures { result ≡ number_of flag }
{
    if flag { 1 } else { 0 }
}

/// Pops a bool, and pushes the other.
#[inline(always)]
pub fn not<V: Vault>(m: &mut Machine) -> Stepped
    requires { IsSound m.old }
    ensures takes { (v : V) → Takes (V.outside v) (V.outside v) (λ c. pop_num_of c (λ z d. put_num_of (number_of (not (is_one_of z))) d)) m.old m.new result }
    ensures goes { result ≢ Breaks }
{
    match pop_num::<V>(m) {
        Some(z) => put_num::<V>(m, number(!is_one(z))),
        None => Stepped::Damaged,
    }
}

// Puts the value of an operator, or stops with its trap.
#[inline(always)]
fn answered<V: Vault>(m: &mut Machine, answer: Result<i32, Trap>, line: Line) -> Stepped
    requires sound { IsSound m.old }
    requires room { length m.old.nums.own < frame_words }
    ensures takes { (v : V) → Takes (V.outside v) (V.outside v) (answered_of line (answer_of answer)) m.old m.new result }
    ensures goes { result ≢ Breaks }
{
    match answer {
        Ok(value) => put_num::<V>(m, value),
        Err(trap) => trapped::<V>(m, trap, line),
    }
}

// Puts the value of an operator in the place of its operands, or stops with its trap.
#[inline(always)]
fn answered_for_two<V: Vault>(m: &mut Machine, answer: Result<i32, Trap>, line: Line) -> Stepped
    requires sound { IsSound m.old }
    requires room { m.old.frame.nums + 2 ≤ length m.old.nums.own }
    ensures takes { (v : V) → TakesTwo (V.outside v) (V.outside v) (answered_of line (answer_of answer)) m.old m.new result }
    ensures goes { result ≢ Breaks }
{
    match answer {
        Ok(value) => put_for_two::<V>(m, value),
        Err(trap) => trapped::<V>(m, trap, line),
    }
}

/// Pops an int, and pushes its negative.
#[inline(always)]
pub fn neg<V: Vault>(m: &mut Machine, line: Line) -> Stepped
    requires { IsSound m.old }
    ensures takes { (v : V) → Takes (V.outside v) (V.outside v) (one_num_of line neg_of) m.old m.new result }
    ensures goes { result ≢ Breaks }
{
    match pop_num::<V>(m) {
        Some(z) => answered::<V>(m, operators::negate(z), line),
        None => Stepped::Damaged,
    }
}

/// Pops two ints, and pushes the value of an operator.
#[inline(always)]
pub fn arith<V: Vault>(m: &mut Machine, op: Operator, line: Line) -> Stepped
    requires { IsSound m.old }
    ensures takes { (v : V) → Takes (V.outside v) (V.outside v) (two_nums_of line (arith_of op)) m.old m.new result }
    ensures goes { result ≢ Breaks }
{
    match top_two::<V>(m) {
        Some((a, b)) => answered_for_two::<V>(m, operators::arith(op, a, b), line),
        None => Stepped::Damaged,
    }
}

/// Pops two numbers, and pushes whether they stand in a relation.
#[inline(always)]
pub fn compare<V: Vault>(m: &mut Machine, relation: Relation) -> Stepped
    requires { IsSound m.old }
    ensures takes { (v : V) → Takes (V.outside v) (V.outside v) (test_of (relation_of relation)) m.old m.new result }
    ensures goes { result ≢ Breaks }
{
    match top_two::<V>(m) {
        Some((a, b)) => put_for_two::<V>(m, number(operators::relate(relation, a, b))),
        None => Stepped::Damaged,
    }
}

/// Pushes the number on top once more.
#[inline(always)]
pub fn dup_num<V: Vault>(m: &mut Machine) -> Stepped
    requires { IsSound m.old }
    ensures takes { (v : V) → Takes (V.outside v) (V.outside v) (λ c. pop_num_of c (λ z d. push_num_of z c)) m.old m.new result }
    ensures goes { result ≢ Breaks }
{
    match top_num::<V>(m) {
        Some(z) => push_num::<V>(m, z),
        None => Stepped::Damaged,
    }
}

/// Pushes the reference on top once more.
#[inline(always)]
pub fn dup_ref<V: Vault>(m: &mut Machine) -> Stepped
    requires { IsSound m.old }
    ensures takes { (v : V) → Takes (V.outside v) (V.outside v) (λ c. pop_ref_of c (λ value d. push_ref_of value c)) m.old m.new result }
    ensures goes { result ≢ Breaks }
{
    match top_ref::<V>(m) {
        Some(word) => push_ref::<V>(m, object(word)),
        None => Stepped::Damaged,
    }
}

/// Drops the reference on top.
#[inline(always)]
pub fn drop_ref<V: Vault>(m: &mut Machine) -> Stepped
    requires { IsSound m.old }
    ensures takes { (v : V) → Takes (V.outside v) (V.outside v) (λ c. pop_ref_of c (λ value d. on d)) m.old m.new result }
    ensures goes { result ≢ Breaks }
{
    match pop_ref::<V>(m) {
        Some(_) => quiet::<V>(m),
        None => Stepped::Damaged,
    }
}
