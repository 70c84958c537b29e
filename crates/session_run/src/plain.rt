//! Instructions that are no calls on databases.
ghost use Rattle.std.specs.Prelude.{◌≡◌, true};
ghost use Rattle.machine_core.specs.obj_layout.Storing.{SameNumbers};
ghost use Rattle.machine_core.specs.ps_stepping.Machine.{acts};
ghost use Rattle.machine_core.specs.ps_stepping.Plain.{is_plain};
ghost use Rattle.machine_core.specs.Holding.{IsSound};
ghost use Rattle.machine_core.specs.Naming.{NamesObjects};
ghost use Rattle.session_run.specs.Ran.{GoesOn};
ghost use Rattle.session_run.specs.inside.Advancing.{CausedBy, Plainly, StaysAlive, WhereOn};

use crate::advanced::{Advanced, on_where};
use machine_core::obj_layout::vault::Vault;
use machine_core::{Machine, Stepped};
use machine_run::act;
use machine_run::run::{blame_code, turned, wrote};
use ps_base::instr::Instr;
use vault_output::Output;

/// Does what an instruction says, whose own offset this is, and writes what it writes. What is pending goes out at a turn.
#[inline(always)]
pub fn plain<V: Vault>(
    m: &mut Machine,
    vault: &mut V,
    output: &mut Output,
    own: u32,
    instr: Instr,
) -> Advanced
    requires sound { IsSound m.old }
    requires names { NamesObjects m.old }
    requires alive { V.alive vault.old }
    requires plain { is_plain instr ≡ true }
    ensures goes { Plainly (V.outside vault.old) (V.outside vault.new) output.old output.new (acts instr own) m.old m.new result }
    ensures sound { WhereOn result (IsSound m.new) }
    ensures names { WhereOn result (NamesObjects m.new) }
    ensures seen { GoesOn (V.outside vault.old) (V.outside vault.new) }
    ensures caused { CausedBy (V.outside vault.old) (V.outside vault.new) (V.access vault.old) m.new result }
    ensures numbers { SameNumbers V.used_words V.directory_at V.most_words V.access vault.old vault.new }
    ensures alive { StaysAlive result (V.alive vault.new) }
{
    match act(m, vault, own, instr) {
        Stepped::Quiet => Advanced::On,
        Stepped::Turns => {
            m.objects.sound();
            on_where(turned(vault, output))
        }
        Stepped::Writes => {
            m.objects.sound();
            on_where(wrote(m, vault, output))
        }
        Stepped::Halts => Advanced::Ended,
        Stepped::Breaks => Advanced::Broke,
        Stepped::Damaged => {
            blame_code(m, own);
            Advanced::Broke
        }
    }
}
