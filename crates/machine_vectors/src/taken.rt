//! What is popped at once, as values that an object is made of.
ghost use Rattle.std.specs.Prelude.{◌≡◌, ◌≤◌, ◌+◌, ◌<◌, [], true, length, map, replicate, MatchOption, List, vec_capacity};
ghost use Rattle.machine_core.specs.obj_layout.declared.reference.Reference.{Reference};
ghost use Rattle.machine_core.specs.swizzle.Heap.{Heap};
ghost use Rattle.machine_core.specs.text_forms.Forms.{is_number_form};
ghost use Rattle.machine_core.specs.heap_places.Filling.{AreNear};
ghost use Rattle.machine_core.specs.joint_ops.Operands.{AreForIn};
ghost use Rattle.machine_core.specs.Holding.{IsSound};
ghost use Rattle.machine_core.specs.Naming.{NamesObjects};
ghost use Rattle.machine_vectors.specs.inside.Taking.{LeavesObjects, TakesNumbers, TakesReferences, kept_values, named};

use machine_core::Machine;
use machine_core::joint_ops::Value;
use machine_core::obj_layout::vault::Vault;
use machine_core::stacks::object;
use machine_core::text_forms::forms::Form;
use machine_operands::forms::kept_as;

/// Takes so many numbers from the top, as the machine's values, each as a place of this form keeps it, in the order in which they were pushed. False where
/// there are fewer; then nothing is taken.
#[inline]
pub(crate) fn take_nums<V: Vault>(m: &mut Machine, form: Form, n: u32) -> bool
    requires sound { IsSound m.old }
    requires names { NamesObjects m.old }
    requires row { is_number_form form ≡ true }
    ensures leaves { LeavesObjects m.old m.new }
    ensures near { result ≡ true → AreNear m.new.objects m.new.values.items }
    ensures takes { (v : V) → TakesNumbers (V.outside v) form n m.old m.new result }
{
    let Some(first) = below_top(m.nums.len(), m.frame.nums, n) else {
        return false;
    };
    m.values.clear();
    lay_nums::<V>(form, m.nums.own().split_at(first).1, &mut m.values);
    m.nums.truncate(first);
    true
}

/// Takes so many references from the top, as the machine's values, in the order in which they were pushed. False where there are fewer; then nothing is
/// taken.
#[inline]
pub(crate) fn take_refs<V: Vault>(m: &mut Machine, n: u32) -> bool
    requires sound { IsSound m.old }
    requires names { NamesObjects m.old }
    ensures leaves { LeavesObjects m.old m.new }
    ensures near { result ≡ true → AreNear m.new.objects m.new.values.items }
    ensures takes { (v : V) → TakesReferences (V.outside v) n m.old m.new result }
{
    let Some(first) = below_top(m.refs.len(), m.frame.refs, n) else {
        return false;
    };
    m.values.clear();
    lay_refs(m.refs.own().split_at(first).1, &mut m.values);
    m.refs.truncate(first);
    true
}

// How many words lie below so many on top, where those lie above the locals.
#[inline(always)]
fn below_top(all: usize, locals: u16, count: u32) -> Option<usize>
    ensures { MatchOption result (all < locals + count) (λ first. (first + count ≡ all) × (locals ≤ first)) }
{
    let count = count as usize;
    if all < locals as usize + count {
        return None;
    }
    Some(all - count)
}

// Lays out numbers as a place of a form keeps them.
#[inline(always)]
fn lay_nums<V: Vault>(form: Form, words: &[i32], values: &mut Vec<Value>)
    requires row { is_number_form form ≡ true }
    requires none { values.old.items ≡ [] }
    requires room { length words.now ≤ vec_capacity values.old }
    ensures laid { (v : V) (here : Heap) (names : List Reference)
        → AreForIn here (V.outside v) names (replicate (length words.now) form) values.new.items (kept_values form words.now) }
    ensures near { (here : Heap) → AreNear here values.new.items }
    ensures room { vec_capacity values.new ≡ vec_capacity values.old }
{
    for z in words {
        values.push_reserved(kept_as::<V>(form, *z));
    }
}

// Lays out what words name.
#[inline(always)]
fn lay_refs(words: &[u32], values: &mut Vec<Value>)
    requires none { values.old.items ≡ [] }
    requires room { length words.now ≤ vec_capacity values.old }
    ensures laid { values.new.items ≡ map named words.now }
    ensures room { vec_capacity values.new ≡ vec_capacity values.old }
{
    for word in words {
        values.push_reserved(Value::Ref(object(*word)));
    }
}
