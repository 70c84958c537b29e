ghost use Rattle.std.specs.Prelude.{◌<◌, IfSome, length};
ghost use Rattle.machine_core.specs.obj_layout.declared.kind.Kind.TheVariants.{Text, Vector};
ghost use Rattle.machine_core.specs.swizzle.Heap.{IsHeld};
ghost use Rattle.machine_core.specs.ps_stepping.Config.{frame_words};
ghost use Rattle.machine_core.specs.ps_stepping.Machine.{pop_num as pop_num_of, pop_width as pop_width_of};
ghost use Rattle.machine_core.specs.Holding.{IsSound};
ghost use Rattle.machine_core.specs.Naming.{NamesObjects};
ghost use Rattle.machine_core.specs.inside.Taking.{Leaves, Taken};
ghost use Rattle.machine_operands.specs.Popping.{IsKind, PopsAny, PopsDenoting, PopsObject, PopsText, PopsVector};

use machine_core::Machine;
use machine_core::joint_ops::values::Sort;
use machine_core::obj_layout::vault::Vault;
use machine_core::stacks::{object, pop_num, pop_ref, pop_width};

/// Pops a number; None where none was pushed.
#[inline(always)]
pub fn pop_int<V: Vault>(m: &mut Machine) -> Option<i32>
    requires sound { IsSound m.old }
    requires names { NamesObjects m.old }
    ensures leaves { Leaves m.old m.new }
    ensures names { NamesObjects m.new }
    ensures room { IfSome result (λ z. length m.new.nums.own < frame_words) }
    ensures pops { (v : V) → Taken (V.outside v) pop_num_of m.old m.new result }
{
    pop_num::<V>(m)
}

/// Pops a width, where one was pushed above an item; the inner None where none was. None where there is none on top.
#[inline(always)]
pub fn take_width<V: Vault>(m: &mut Machine, given: u32) -> Option<Option<i32>>
    requires sound { IsSound m.old }
    requires names { NamesObjects m.old }
    ensures leaves { Leaves m.old m.new }
    ensures names { NamesObjects m.new }
    ensures pops { (v : V) → Taken (V.outside v) (pop_width_of given) m.old m.new result }
{
    pop_width::<V>(m, given)
}

/// Pops a reference; None where none was pushed.
#[inline(always)]
pub fn pop_any<V: Vault>(m: &mut Machine) -> Option<Option<u32>>
    requires sound { IsSound m.old }
    requires names { NamesObjects m.old }
    ensures leaves { Leaves m.old m.new }
    ensures names { NamesObjects m.new }
    ensures room { IfSome result (λ to. length m.new.refs.own < frame_words) }
    ensures held { IfSome result (λ to. IfSome to (IsHeld m.new.objects)) }
    ensures pops { (v : V) → PopsAny (V.outside v) m.old m.new result }
{
    let word = pop_ref::<V>(m)?;
    Some(object(word))
}

/// Pops a text; None where there is none on top.
#[inline(always)]
pub fn pop_text<V: Vault>(m: &mut Machine) -> Option<u32>
    requires sound { IsSound m.old }
    requires names { NamesObjects m.old }
    ensures leaves { Leaves m.old m.new }
    ensures names { NamesObjects m.new }
    ensures room { IfSome result (λ at. length m.new.refs.own < frame_words) }
    ensures text { IfSome result (IsKind Text m.new.objects) }
    ensures pops { (v : V) → PopsText (V.outside v) m.old m.new result }
{
    let word = pop_ref::<V>(m)?;
    m.objects.sound();
    match m.objects.sort_of::<V>(object(word)) {
        Sort::Text => object(word),
        _ => None,
    }
}

/// Pops nil, a structure or a table; None where none of these is on top.
#[inline(always)]
pub fn pop_object<V: Vault>(m: &mut Machine) -> Option<Option<u32>>
    requires sound { IsSound m.old }
    requires names { NamesObjects m.old }
    ensures leaves { Leaves m.old m.new }
    ensures names { NamesObjects m.new }
    ensures room { IfSome result (λ to. length m.new.refs.own < frame_words) }
    ensures held { IfSome result (λ to. IfSome to (IsHeld m.new.objects)) }
    ensures pops { (v : V) → PopsObject (V.outside v) m.old m.new result }
{
    let word = pop_ref::<V>(m)?;
    m.objects.sound();
    match m.objects.sort_of::<V>(object(word)) {
        Sort::Nil => Some(None),
        Sort::Pointer => Some(object(word)),
        _ => None,
    }
}

/// Pops nil, a structure, a table or a vector; None where none of these is on top.
#[inline(always)]
pub fn pop_denoting<V: Vault>(m: &mut Machine) -> Option<Option<u32>>
    requires sound { IsSound m.old }
    requires names { NamesObjects m.old }
    ensures leaves { Leaves m.old m.new }
    ensures names { NamesObjects m.new }
    ensures room { IfSome result (λ to. length m.new.refs.own < frame_words) }
    ensures held { IfSome result (λ to. IfSome to (IsHeld m.new.objects)) }
    ensures pops { (v : V) → PopsDenoting (V.outside v) m.old m.new result }
{
    let word = pop_ref::<V>(m)?;
    m.objects.sound();
    match m.objects.sort_of::<V>(object(word)) {
        Sort::Nil => Some(None),
        Sort::Pointer => Some(object(word)),
        Sort::Vector => Some(object(word)),
        _ => None,
    }
}

/// Pops a vector; None where there is none on top.
#[inline(always)]
pub fn pop_vector<V: Vault>(m: &mut Machine) -> Option<u32>
    requires sound { IsSound m.old }
    requires names { NamesObjects m.old }
    ensures leaves { Leaves m.old m.new }
    ensures names { NamesObjects m.new }
    ensures room { IfSome result (λ at. length m.new.refs.own < frame_words) }
    ensures vector { IfSome result (IsKind Vector m.new.objects) }
    ensures pops { (v : V) → PopsVector (V.outside v) m.old m.new result }
{
    let word = pop_ref::<V>(m)?;
    m.objects.sound();
    match m.objects.sort_of::<V>(object(word)) {
        Sort::Vector => object(word),
        _ => None,
    }
}
