ghost use Rattle.std.specs.Prelude.{◌≡◌, ◌≢◌, ◌<◌, ◌+◌, ◌≤◌, length, IfSome, List};
ghost use Rattle.joint_ops.specs.swizzle.Heap.{IsHeld};
ghost use Rattle.ps_stepping.specs.Config.{Config, frame_words};
ghost use Rattle.ps_stepping.specs.Machine.{put_num as put_num_of, push_num as push_num_of, push_ref as push_ref_of, pop_num as pop_num_of, pop_ref as pop_ref_of, pop_width as pop_width_of, on, with_num, with_ref};
ghost use Rattle.machine_core.specs.Holding.{Holds, IsSound, object_in, word_of};
ghost use Rattle.machine_core.specs.Naming.{IsNamed, NamesObjects};
ghost use Rattle.machine_core.specs.Stepped.{Takes};
ghost use Rattle.machine_core.specs.declared.stepped.Stepped.TheVariants.{Breaks};
ghost use Rattle.machine_core.specs.inside.Taking.{Leaves, Taken, TakenRef, HasTop, HasTopRef, HasTwo, TakesTwo, TakesRef, Becomes, ReadsNum, ReadsRef};

use crate::machine::{FRAME_WORDS, Machine};
use crate::stepped::Stepped;
use joint_ops::obj_layout::vault::Vault;

/// Pops a number, where one was pushed.
#[inline(always)]
pub fn pop_num<V: Vault>(m: &mut Machine) -> Option<i32>
    requires { IsSound m.old }
    ensures leaves { Leaves m.old m.new }
    ensures room { IfSome result (λ z. length m.new.nums.own < frame_words) }
    ensures taken { (v : V) → Taken (V.outside v) pop_num_of m.old m.new result }
{
    if m.nums.len() <= m.frame.nums as usize {
        return None;
    }
    Some(m.nums.take_last())
}

/// Pops a reference, where one was pushed.
#[inline(always)]
pub fn pop_ref<V: Vault>(m: &mut Machine) -> Option<u32>
    requires { IsSound m.old }
    ensures leaves { Leaves m.old m.new }
    ensures room { IfSome result (λ w. length m.new.refs.own < frame_words) }
    ensures named { NamesObjects m.old → IfSome result (λ w. IsNamed m.new.objects w) }
    ensures taken { (v : V) → TakenRef (V.outside v) pop_ref_of m.old m.new result }
{
    if m.refs.len() <= m.frame.refs as usize {
        return None;
    }
    Some(m.refs.take_last())
}

/// The number on top, where one was pushed.
#[inline(always)]
pub fn top_num<V: Vault>(m: &Machine) -> Option<i32>
    ensures { (v : V) (c : Config) → Holds (V.outside v) m.now c → HasTop c result }
{
    let count = m.nums.len();
    if count <= m.frame.nums as usize {
        return None;
    }
    Some(m.nums.word(count - 1))
}

/// The two numbers on top, the left operand first, where two were pushed.
#[inline(always)]
pub fn top_two<V: Vault>(m: &Machine) -> Option<(i32, i32)>
    ensures tops { (v : V) (c : Config) → Holds (V.outside v) m.now c → HasTwo c result }
    ensures room { IfSome result (λ p. m.now.frame.nums + 2 ≤ length m.now.nums.own) }
{
    let count = m.nums.len();
    if count < m.frame.nums as usize + 2 {
        return None;
    }
    Some((m.nums.word(count - 2), m.nums.word(count - 1)))
}

/// Puts a number in the place of the two on top.
#[inline(always)]
pub fn put_for_two<V: Vault>(m: &mut Machine, z: i32) -> Stepped
    requires sound { IsSound m.old }
    requires room { m.old.frame.nums + 2 ≤ length m.old.nums.own }
    ensures takes { (v : V) → TakesTwo (V.outside v) (V.outside v) (put_num_of z) m.old m.new result }
    ensures goes { result ≢ Breaks }
{
    let left = m.nums.len() - 1;
    m.nums.truncate(left);
    m.nums.set(left - 1, z);
    Stepped::Quiet
}

/// The reference on top, where one was pushed.
#[inline(always)]
pub fn top_ref<V: Vault>(m: &Machine) -> Option<u32>
    ensures named { NamesObjects m.now → IfSome result (λ w. IsNamed m.now.objects w) }
    ensures top { (v : V) (c : Config) → Holds (V.outside v) m.now c → HasTopRef (V.outside v) m.now c result }
{
    let count = m.refs.len();
    if count <= m.frame.refs as usize {
        return None;
    }
    Some(m.refs.word(count - 1))
}

/// Puts a number in the place of one that was popped.
#[inline(always)]
pub fn put_num<V: Vault>(m: &mut Machine, z: i32) -> Stepped
    requires sound { IsSound m.old }
    requires room { length m.old.nums.own < frame_words }
    ensures takes { (v : V) → Takes (V.outside v) (V.outside v) (put_num_of z) m.old m.new result }
    ensures goes { result ≢ Breaks }
{
    m.nums.push_reserved(z);
    Stepped::Quiet
}

/// Pushes a number, where the frame has room for one more.
#[inline(always)]
pub fn push_num<V: Vault>(m: &mut Machine, z: i32) -> Stepped
    requires { IsSound m.old }
    ensures takes { (v : V) → Takes (V.outside v) (V.outside v) (push_num_of z) m.old m.new result }
    ensures goes { result ≢ Breaks }
{
    if m.nums.len() >= FRAME_WORDS {
        return Stepped::Damaged;
    }
    put_num::<V>(m, z)
}

/// The object that a word names.
#[inline(always)]
pub fn object(word: u32) -> Option<u32>
    ensures { result ≡ object_in word }
{
    if word == 0 { None } else { Some(word) }
}

/// The word that names an object, or none.
#[inline(always)]
pub fn word(to: Option<u32>) -> u32
    ensures { result ≡ word_of to }
{
    match to {
        Some(at) => at,
        None => 0,
    }
}

/// Pushes a reference in the place of one that was popped.
#[inline(always)]
pub fn put_ref<V: Vault>(m: &mut Machine, to: Option<u32>) -> Stepped
    requires sound { IsSound m.old }
    requires room { length m.old.refs.own < frame_words }
    ensures takes { (v : V) → TakesRef (V.outside v) (V.outside v) push_ref_of m.old to m.new result }
    ensures goes { result ≢ Breaks }
{
    m.objects.sound();
    m.refs.push_reserved(word(to));
    Stepped::Quiet
}

/// Pushes a reference, where the frame has room for one more.
#[inline(always)]
pub fn push_ref<V: Vault>(m: &mut Machine, to: Option<u32>) -> Stepped
    requires { IsSound m.old }
    ensures takes { (v : V) → TakesRef (V.outside v) (V.outside v) push_ref_of m.old to m.new result }
    ensures goes { result ≢ Breaks }
{
    if m.refs.len() >= FRAME_WORDS {
        return Stepped::Damaged;
    }
    put_ref::<V>(m, to)
}

/// The local of this slot among the numbers, where the frame has it.
#[inline(always)]
pub fn num_at<V: Vault>(m: &Machine, slot: usize) -> Option<i32>
    requires { IsSound m.now }
    ensures reads { (v : V) (c : Config) → Holds (V.outside v) m.now c → ReadsNum slot c result }
    ensures within { IfSome result (λ z. slot < m.now.frame.nums) }
{
    if slot >= m.frame.nums as usize {
        return None;
    }
    Some(m.nums.word(slot))
}

/// The local of this slot among the references, where the frame has it.
#[inline(always)]
pub fn ref_at<V: Vault>(m: &Machine, slot: usize) -> Option<u32>
    requires { IsSound m.now }
    ensures named { NamesObjects m.now → IfSome result (λ w. IsNamed m.now.objects w) }
    ensures reads { (v : V) (c : Config) → Holds (V.outside v) m.now c → ReadsRef (V.outside v) slot m.now c result }
{
    if slot >= m.frame.refs as usize {
        return None;
    }
    Some(m.refs.word(slot))
}

/// Writes a local among the numbers.
#[inline(always)]
pub fn set_num_at<V: Vault>(m: &mut Machine, slot: usize, z: i32)
    requires sound { IsSound m.old }
    requires slot { slot < m.old.frame.nums }
    ensures leaves { Leaves m.old m.new }
    ensures becomes { (v : V) → Becomes (V.outside v) (λ c. with_num c slot z) m.old m.new }
{
    m.nums.set(slot, z);
}

/// Writes a local among the references.
#[inline(always)]
pub fn set_ref_at<V: Vault>(m: &mut Machine, slot: usize, to: Option<u32>) -> Stepped
    requires sound { IsSound m.old }
    requires slot { slot < m.old.frame.refs }
    ensures takes { (v : V) → TakesRef (V.outside v) (V.outside v) (λ value c. on (with_ref c slot value)) m.old to m.new result }
    ensures goes { result ≢ Breaks }
{
    m.objects.sound();
    m.refs.set(slot, word(to));
    Stepped::Quiet
}

/// Pops a width, where one was pushed above an item.
#[inline(always)]
pub fn pop_width<V: Vault>(m: &mut Machine, given: u32) -> Option<Option<i32>>
    requires { IsSound m.old }
    ensures leaves { Leaves m.old m.new }
    ensures taken { (v : V) → Taken (V.outside v) (pop_width_of given) m.old m.new result }
{
    match given {
        0 => Some(None),
        1 => match pop_num::<V>(m) {
            Some(width) => Some(Some(width)),
            None => None,
        },
        _ => None,
    }
}
