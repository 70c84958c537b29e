//! The calls of the library on databases but the commit. Where there isn't what a call wants on the stacks, the code is damaged. What isn't in the area is fetched;
//! where it can't be, or there is no room for what is made, the call breaks off.
ghost use Rattle.ps_base.specs.declared.line.Line.{Line};
ghost use Rattle.machine_core.specs.obj_layout.Storing.{SameNumbers};
ghost use Rattle.machine_core.specs.swizzle.Reading.{LeavesOutside};
ghost use Rattle.machine_core.specs.ps_heap.Library.{CreateDatabase, OpenDatabase};
ghost use Rattle.machine_core.specs.ps_stepping.Library.{call_on_heap};
ghost use Rattle.machine_core.specs.Failing.{FailsAsReading};
ghost use Rattle.machine_core.specs.Holding.{IsSound};
ghost use Rattle.machine_core.specs.Naming.{NamesObjects};
ghost use Rattle.machine_core.specs.Stepped.{UnlessBroken};
ghost use Rattle.machine_databases.specs.Calls.{TakesCall};

use crate::created::created;
use crate::opened::opened;
use machine_core::obj_layout::vault::Vault;
use machine_core::{Machine, Stepped};
use machine_operands::pops::pop_text;

/// Pops a password and a name, and pushes the root of the database that is created with them, or an error record.
pub fn create_database<V: Vault>(m: &mut Machine, vault: &mut V) -> Stepped
    requires sound { IsSound m.old }
    requires names { NamesObjects m.old }
    requires alive { V.alive vault.old }
    ensures takes { (line : Line) → TakesCall (V.outside vault.old) (V.outside vault.new) (call_on_heap CreateDatabase line) m.old m.new result }
    ensures fails { FailsAsReading (V.outside vault.old) (V.outside vault.new) result m.new }
    ensures leaves { LeavesOutside (V.outside vault.old) (V.outside vault.new) }
    ensures numbers { SameNumbers V.used_words V.directory_at V.most_words V.access vault.old vault.new }
    ensures alive { UnlessBroken result (V.alive vault.new) }
{
    let Some(password) = pop_text::<V>(m) else {
        return Stepped::Damaged;
    };
    let Some(name) = pop_text::<V>(m) else {
        return Stepped::Damaged;
    };
    created(m, vault, name, password)
}

/// Pops a mode, a password and a name, and pushes the root of the database that is opened with them, or an error record.
pub fn open_database<V: Vault>(m: &mut Machine, vault: &mut V) -> Stepped
    requires sound { IsSound m.old }
    requires names { NamesObjects m.old }
    requires alive { V.alive vault.old }
    ensures takes { (line : Line) → TakesCall (V.outside vault.old) (V.outside vault.new) (call_on_heap OpenDatabase line) m.old m.new result }
    ensures fails { FailsAsReading (V.outside vault.old) (V.outside vault.new) result m.new }
    ensures leaves { LeavesOutside (V.outside vault.old) (V.outside vault.new) }
    ensures numbers { SameNumbers V.used_words V.directory_at V.most_words V.access vault.old vault.new }
    ensures alive { UnlessBroken result (V.alive vault.new) }
{
    let Some(mode) = pop_text::<V>(m) else {
        return Stepped::Damaged;
    };
    let Some(password) = pop_text::<V>(m) else {
        return Stepped::Damaged;
    };
    let Some(name) = pop_text::<V>(m) else {
        return Stepped::Damaged;
    };
    opened(m, vault, name, password, mode)
}
