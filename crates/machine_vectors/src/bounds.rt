//! Instructions that push a bound of a vector.
ghost use Rattle.machine_core.specs.obj_layout.Storing.{SameNumbers};
ghost use Rattle.machine_core.specs.swizzle.Reading.{LeavesOutside};
ghost use Rattle.machine_core.specs.ps_heap.Objects.{low_of, high_of};
ghost use Rattle.machine_core.specs.ps_stepping.Objects.{bound as bound_of};
ghost use Rattle.machine_core.specs.Failing.{FailsAsReading};
ghost use Rattle.machine_core.specs.Holding.{IsSound};
ghost use Rattle.machine_core.specs.Naming.{NamesObjects};
ghost use Rattle.machine_core.specs.Stepped.{Takes, UnlessBroken};

use machine_core::obj_layout::vault::Vault;
use machine_core::{Machine, Stepped};
use machine_operands::gives::give_bound;
use machine_operands::pops::pop_vector;

/// Pops a vector, and pushes its lower bound. Damaged where there is no vector on top, or the stack of numbers is full; breaks off where the text of its
/// type can't be fetched.
#[inline]
pub fn lower_bound<V: Vault>(m: &mut Machine, vault: &mut V) -> Stepped
    requires sound { IsSound m.old }
    requires names { NamesObjects m.old }
    requires alive { V.alive vault.old }
    ensures takes { Takes (V.outside vault.old) (V.outside vault.new) (bound_of low_of) m.old m.new result }
    ensures fails { FailsAsReading (V.outside vault.old) (V.outside vault.new) result m.new }
    ensures leaves { LeavesOutside (V.outside vault.old) (V.outside vault.new) }
    ensures numbers { SameNumbers V.used_words V.directory_at V.most_words V.access vault.old vault.new }
    ensures alive { UnlessBroken result (V.alive vault.new) }
{
    let Some(vector) = pop_vector::<V>(m) else {
        return Stepped::Damaged;
    };
    let bound = m.objects.lower_bound(vault, vector);
    give_bound::<V>(m, bound)
}

/// As `lower_bound`, with the upper bound.
#[inline]
pub fn upper_bound<V: Vault>(m: &mut Machine, vault: &mut V) -> Stepped
    requires sound { IsSound m.old }
    requires names { NamesObjects m.old }
    requires alive { V.alive vault.old }
    ensures takes { Takes (V.outside vault.old) (V.outside vault.new) (bound_of high_of) m.old m.new result }
    ensures fails { FailsAsReading (V.outside vault.old) (V.outside vault.new) result m.new }
    ensures leaves { LeavesOutside (V.outside vault.old) (V.outside vault.new) }
    ensures numbers { SameNumbers V.used_words V.directory_at V.most_words V.access vault.old vault.new }
    ensures alive { UnlessBroken result (V.alive vault.new) }
{
    let Some(vector) = pop_vector::<V>(m) else {
        return Stepped::Damaged;
    };
    let bound = m.objects.upper_bound(vault, vector);
    give_bound::<V>(m, bound)
}
