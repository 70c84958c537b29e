//! Instructions over references to structures, and over their classes.
ghost use Rattle.std.specs.Prelude.{◌≡◌, ◌≢◌};
ghost use Rattle.machine_core.specs.obj_layout.Storing.{SameNumbers};
ghost use Rattle.machine_core.specs.swizzle.Reading.{LeavesOutside};
ghost use Rattle.machine_core.specs.ps_meaning.Operations.{object_relation};
ghost use Rattle.machine_core.specs.ps_heap.Objects.{is_one_object};
ghost use Rattle.machine_core.specs.ps_heap.Values as meant;
ghost use Rattle.machine_core.specs.ps_heap.Values.{Nil};
ghost use Rattle.machine_core.specs.ps_stepping.Steps.{push_ref as push_ref_of};
ghost use Rattle.machine_core.specs.ps_stepping.Objects.{compare_objects as compare_objects_of, is_of_class as is_of_class_of};
ghost use Rattle.machine_core.specs.Failing.{FailsAsReading};
ghost use Rattle.machine_core.specs.Holding.{IsSound};
ghost use Rattle.machine_core.specs.Naming.{NamesObjects};
ghost use Rattle.machine_core.specs.Stepped.{Takes, UnlessBroken};
ghost use Rattle.machine_core.specs.declared.stepped.Stepped.TheVariants.{Breaks};

use machine_core::obj_layout::vault::Vault;
use machine_core::stacks::{push_num, push_ref};
use machine_core::values::number;
use machine_core::{Machine, Stepped};
use machine_operands::gives::give_flag;
use machine_operands::pops::{pop_denoting, pop_object};
use ps_base::operator::Relation;

/// Pushes nil. Damaged where the stack is full.
#[inline(always)]
pub fn push_nil<V: Vault>(m: &mut Machine) -> Stepped
    requires { IsSound m.old }
    ensures takes { (v : V) → Takes (V.outside v) (V.outside v) (push_ref_of Nil) m.old m.new result }
    ensures goes { result ≢ Breaks }
{
    push_ref::<V>(m, None)
}

/// Pops two references, and pushes whether they are one, or are not. Damaged where there aren't two, or one is a text or a procedure.
#[inline]
pub fn compare_objects<V: Vault>(m: &mut Machine, relation: Relation) -> Stepped
    requires sound { IsSound m.old }
    requires names { NamesObjects m.old }
    ensures takes { (v : V) → Takes (V.outside v) (V.outside v) (compare_objects_of relation) m.old m.new result }
    ensures goes { result ≢ Breaks }
{
    let Some(b) = pop_denoting::<V>(m) else {
        return Stepped::Damaged;
    };
    let Some(a) = pop_denoting::<V>(m) else {
        return Stepped::Damaged;
    };
    let are_one = m.objects.is_one::<V>(a, b);
    let stands = is_related(relation, are_one);
    push_num::<V>(m, number(stands))
}

// Whether objects of which it is known whether they are one stand in a relation: each but NotEqual is that they are.
#[inline(always)]
fn is_related(relation: Relation, are_one: bool) -> bool
    ensures { (v w : meant.Value) → is_one_object v w ≡ are_one → object_relation relation v w ≡ result }
{
    match relation {
        Relation::NotEqual => !are_one,
        _ => are_one,
    }
}

/// Pops nil or a structure, and pushes whether it is of the class that is the text constant of this number of the code: nil is not. Damaged where neither is
/// on top; breaks off where the code has no such class, or what isn't in the area can't be fetched.
#[inline]
pub fn is_of_class<V: Vault>(m: &mut Machine, vault: &mut V, k: u32) -> Stepped
    requires sound { IsSound m.old }
    requires names { NamesObjects m.old }
    requires alive { V.alive vault.old }
    ensures takes { Takes (V.outside vault.old) (V.outside vault.new) (is_of_class_of k) m.old m.new result }
    ensures fails { FailsAsReading (V.outside vault.old) (V.outside vault.new) result m.new }
    ensures leaves { LeavesOutside (V.outside vault.old) (V.outside vault.new) }
    ensures numbers { SameNumbers V.used_words V.directory_at V.most_words V.access vault.old vault.new }
    ensures alive { UnlessBroken result (V.alive vault.new) }
{
    let code = m.code;
    let Some(object) = pop_object::<V>(m) else {
        return Stepped::Damaged;
    };
    let told = m.objects.is_class(vault, object, code, k);
    give_flag::<V>(m, told)
}
