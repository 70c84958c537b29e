//! A run, step by step, to its end.
ghost use Rattle.std.specs.Prelude.{◌≡◌, ◌+◌, ◌≤◌, true, IfErr, OnOk, vec_capacity};
ghost use Rattle.machine_core.specs.ps_stepping.Config.{Config};
ghost use Rattle.machine_core.specs.Holding.{Holds, IsSound};
ghost use Rattle.machine_core.specs.Naming.{NamesObjects};
ghost use Rattle.database_steps.specs.Databases.{IsAlone};
ghost use Rattle.session_run.specs.Ran.{GoesOn, IsCause, Ran, SameLimits};

use crate::advance::advance;
use crate::advanced::Advanced;
use machine_core::obj_layout::vault::{Vault, VaultFault};
use machine_core::swizzle::fault::SwizzleFault;
use machine_core::{Machine, RunEnd};
use machine_run::run::{code_damage, finish};
use vault_output::Output;

// In so many steps a turn is taken, or the run ends: code that takes no turn goes forward in a body, of fewer than 2^32 bytes, or comes back to one that
// waits, of which there are at most 2,000.
const STEPS_IN_A_TURN: u64 = 1 << 43;

/// Runs a machine to its end, and outputs what it writes and the report of its end; what is pending goes out at each turn, before each commit and where the
/// buffer of the output is full, and the rest is pending after the run. It takes no memory; the images of a commit are made in the buffer, which grows within
/// what is reserved. Where the run breaks off, the fault says why: the area has no room for an object, the device failed, the vault is full or lacks pages, an object
/// that was to be fetched or the code is damaged, or the output failed; where the output or a commit failed nothing is pending. It always ends. After a fault the
/// machine is of no use until a unit is loaded, and after one of the vault that isn't alive.
pub fn run<V: Vault>(
    m: &mut Machine,
    vault: &mut V,
    output: &mut Output,
    images: &mut Vec<u64>,
) -> Result<RunEnd, SwizzleFault>
    requires sound { IsSound m.old }
    requires names { NamesObjects m.old }
    requires alive { V.alive vault.old }
    requires writes { (V.access vault.old).writes ≡ true }
    requires room { m.old.objects.size ≤ vec_capacity images.old + 1 }
    ensures ran { (c : Config) → Holds (V.outside vault.old) m.old c → IsAlone c.store.held
        → Ran (V.outside vault.old) (V.outside vault.new) output.old output.new V.outside m.old.objects.size c result }
    ensures seen { GoesOn (V.outside vault.old) (V.outside vault.new) }
    ensures caused { IfErr result (IsCause (V.outside vault.old) (V.outside vault.new) (V.access vault.old)) }
    ensures limits { SameLimits V.most_words V.access vault.old vault.new }
    ensures room { vec_capacity images.new ≡ vec_capacity images.old }
    ensures alive { OnOk result (V.alive vault.new) }
{
    let mut turns = m.turns;
    let mut steps = STEPS_IN_A_TURN;
    m.objects.sound();
    loop {
        let advanced = advance(m, vault, output, images);
        m.objects.sound();
        match advanced {
            Advanced::On => {
                if steps > 1 {
                    steps -= 1;
                    continue;
                }
                if m.turns >= turns {
                    return Err(code_damage(m, m.at));
                }
                turns = m.turns;
                steps = STEPS_IN_A_TURN;
            }
            Advanced::Ended => return finish(m.end, vault, output),
            Advanced::Broke => return Err(m.fault),
            Advanced::Failed => return Err(SwizzleFault::Vault(VaultFault::Output)),
        }
    }
}
