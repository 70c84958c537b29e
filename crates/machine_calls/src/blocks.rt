//! Instructions that enter scopes and leave them.
ghost use Rattle.std.specs.Prelude.{◌≡◌};
ghost use Rattle.machine_core.specs.obj_layout.Storing.{SameNumbers};
ghost use Rattle.machine_core.specs.swizzle.Heap.{IsHeld, header_at};
ghost use Rattle.machine_core.specs.swizzle.Reading.{LeavesOutside};
ghost use Rattle.machine_core.specs.ps_stepping.Procedures.{enter_scope as enter_scope_of, leave_scope as leave_scope_of};
ghost use Rattle.machine_core.specs.Holding.{IsSound};
ghost use Rattle.machine_core.specs.Naming.{NamesObjects};
ghost use Rattle.machine_core.specs.Stepped.{Takes, UnlessBroken};
ghost use Rattle.machine_core.specs.Failing.{FailsAsReading};
ghost use Rattle.machine_calls.specs.inside.Making.{MakesScopeOf};

use crate::faults::broke;
use machine_core::current::{scope, set_scope};
use machine_core::obj_layout::kind::Kind;
use machine_core::obj_layout::vault::Vault;
use machine_core::{Machine, Stepped};

/// Makes a scope of the text constant of this number inside the current one. It is the current one from then on. Damaged where that constant is a unit;
/// breaks off where there is no such constant, its text can't be fetched, or the area has no room.
#[inline]
pub fn enter_scope<V: Vault>(m: &mut Machine, vault: &mut V, k: u32) -> Stepped
    requires sound { IsSound m.old }
    requires names { NamesObjects m.old }
    requires alive { V.alive vault.old }
    ensures takes { Takes (V.outside vault.old) (V.outside vault.new) (enter_scope_of k) m.old m.new result }
    ensures fails { FailsAsReading (V.outside vault.old) (V.outside vault.new) result m.new }
    ensures leaves { LeavesOutside (V.outside vault.old) (V.outside vault.new) }
    ensures numbers { SameNumbers V.used_words V.directory_at V.most_words V.access vault.old vault.new }
    ensures alive { UnlessBroken result (V.alive vault.new) }
{
    let code = m.code;
    let got = m.objects.text_of(vault, code, k);
    match got {
        Ok(constant) => match constant {
            Some(text) => enter(m, vault, text),
            None => Stepped::Damaged,
        },
        Err(fault) => broke(m, fault),
    }
}

// Makes a scope of a text inside the current one, and makes it the current one.
#[inline]
fn enter<V: Vault>(m: &mut Machine, vault: &V, text: u32) -> Stepped
    requires sound { IsSound m.old }
    requires names { NamesObjects m.old }
    requires held { IsHeld m.old.objects text }
    requires text { (header_at m.old.objects text).kind ≡ Kind.Text }
    ensures makes { MakesScopeOf (V.outside vault.now) text m.old m.new result }
    ensures fails { FailsAsReading (V.outside vault.now) (V.outside vault.now) result m.new }
{
    let within = scope::<V>(m);
    let made = m.objects.make_scope(vault, text, within);
    match made {
        Ok(at) => {
            set_scope::<V>(m, Some(at));
            Stepped::Quiet
        }
        Err(fault) => broke(m, fault),
    }
}

/// Makes the scope round the current one the current one again. Damaged where the run is in no scope; breaks off where the scope is damaged, or what it
/// needs can't be fetched.
#[inline]
pub fn leave_scope<V: Vault>(m: &mut Machine, vault: &mut V) -> Stepped
    requires sound { IsSound m.old }
    requires names { NamesObjects m.old }
    requires alive { V.alive vault.old }
    ensures takes { Takes (V.outside vault.old) (V.outside vault.new) leave_scope_of m.old m.new result }
    ensures fails { FailsAsReading (V.outside vault.old) (V.outside vault.new) result m.new }
    ensures leaves { LeavesOutside (V.outside vault.old) (V.outside vault.new) }
    ensures numbers { SameNumbers V.used_words V.directory_at V.most_words V.access vault.old vault.new }
    ensures alive { UnlessBroken result (V.alive vault.new) }
{
    let Some(at) = scope::<V>(m) else {
        return Stepped::Damaged;
    };
    let got = m.objects.parent_of(vault, at);
    match got {
        Ok(parent) => {
            set_scope::<V>(m, parent);
            Stepped::Quiet
        }
        Err(fault) => broke(m, fault),
    }
}
