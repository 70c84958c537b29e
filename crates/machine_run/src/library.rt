//! Calls of the library.
ghost use Rattle.machine_core.specs.obj_layout.Storing.{SameNumbers};
ghost use Rattle.machine_core.specs.swizzle.Reading.{LeavesOutside};
ghost use Rattle.machine_core.specs.ps_stepping.Plain.{plain_library};
ghost use Rattle.machine_core.specs.Failing.{FailsAsReading};
ghost use Rattle.machine_core.specs.Holding.{IsSound};
ghost use Rattle.machine_core.specs.Naming.{NamesObjects};
ghost use Rattle.machine_core.specs.Stepped.{Takes, UnlessBroken};

use machine_core::obj_layout::vault::Vault;
use machine_core::{Machine, Stepped};
use machine_strings::inputs::{at_end, read_line};
use machine_strings::texts::{int_text, length};
use machine_tables::tables::{
    cardinality, enter_int, enter_string, look_up_int, look_up_string, make_table,
};
use ps_base::line::Line;

/// Calls the library's procedure of this code; damaged where it has none, and where it is one of databases.
#[inline]
pub fn library<V: Vault>(m: &mut Machine, vault: &mut V, code: u32, line: Line) -> Stepped
    requires sound { IsSound m.old }
    requires names { NamesObjects m.old }
    requires alive { V.alive vault.old }
    ensures takes { Takes (V.outside vault.old) (V.outside vault.new) (plain_library code line) m.old m.new result }
    ensures fails { FailsAsReading (V.outside vault.old) (V.outside vault.new) result m.new }
    ensures leaves { LeavesOutside (V.outside vault.old) (V.outside vault.new) }
    ensures numbers { SameNumbers V.used_words V.directory_at V.most_words V.access vault.old vault.new }
    ensures alive { UnlessBroken result (V.alive vault.new) }
{
    match code {
        3 => make_table(m, vault, line),
        4 => enter_string(m, vault, line),
        5 => look_up_string(m, vault, line),
        6 => enter_int(m, vault, line),
        7 => look_up_int(m, vault, line),
        8 => cardinality(m, vault, line),
        9 => read_line::<V>(m, line),
        10 => at_end::<V>(m),
        11 => length::<V>(m),
        12 => int_text(m, vault),
        _ => Stepped::Damaged,
    }
}
