//! The instruction that makes a procedure.
ghost use Rattle.std.specs.Prelude.{◌≡◌};
ghost use Rattle.machine_core.specs.obj_layout.Storing.{SameNumbers};
ghost use Rattle.machine_core.specs.swizzle.Heap.{IsHeld};
ghost use Rattle.machine_core.specs.swizzle.Reading.{LeavesOutside};
ghost use Rattle.machine_core.specs.ps_stepping.Procedures.{closure as closure_of};
ghost use Rattle.machine_core.specs.Holding.{IsSound};
ghost use Rattle.machine_core.specs.Naming.{NamesObjects};
ghost use Rattle.machine_core.specs.Stepped.{Takes, UnlessBroken};
ghost use Rattle.machine_core.specs.Failing.{FailsAsReading};
ghost use Rattle.machine_calls.specs.inside.Making.{MakesProcedureOf};

use crate::faults::broke;
use machine_core::current::scope;
use machine_core::obj_layout::vault::Vault;
use machine_core::stacks::push_ref;
use machine_core::{FRAME_WORDS, Machine, Stepped};

/// Makes the procedure of the unit that is the constant of this number, in the current scope, and pushes it. Damaged where that constant is a text, or
/// the stack is full; breaks off where there is no such constant, its unit can't be fetched, or the area has no room.
#[inline]
pub fn closure<V: Vault>(m: &mut Machine, vault: &mut V, k: u32) -> Stepped
    requires sound { IsSound m.old }
    requires names { NamesObjects m.old }
    requires alive { V.alive vault.old }
    ensures takes { Takes (V.outside vault.old) (V.outside vault.new) (closure_of k) m.old m.new result }
    ensures fails { FailsAsReading (V.outside vault.old) (V.outside vault.new) result m.new }
    ensures leaves { LeavesOutside (V.outside vault.old) (V.outside vault.new) }
    ensures numbers { SameNumbers V.used_words V.directory_at V.most_words V.access vault.old vault.new }
    ensures alive { UnlessBroken result (V.alive vault.new) }
{
    let code = m.code;
    let got = m.objects.literal_of(vault, code, k);
    match got {
        Ok(constant) => match constant {
            Some(literal) => make(m, vault, literal),
            None => Stepped::Damaged,
        },
        Err(fault) => broke(m, fault),
    }
}

// Makes the procedure of a unit in the current scope, and pushes it. Where the stack is full, that comes before want of room in the area.
#[inline]
fn make<V: Vault>(m: &mut Machine, vault: &V, code: u32) -> Stepped
    requires sound { IsSound m.old }
    requires names { NamesObjects m.old }
    requires held { IsHeld m.old.objects code }
    ensures makes { MakesProcedureOf (V.outside vault.now) code m.old m.new result }
    ensures fails { FailsAsReading (V.outside vault.now) (V.outside vault.now) result m.new }
{
    let within = scope::<V>(m);
    let made = m.objects.make_procedure(vault, code, within);
    match made {
        Ok(at) => push_ref::<V>(m, Some(at)),
        Err(fault) => {
            if m.refs.len() >= FRAME_WORDS {
                return Stepped::Damaged;
            }
            broke(m, fault)
        }
    }
}
