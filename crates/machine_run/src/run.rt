//! A run, step by step, to its end.
ghost use Rattle.std.specs.Prelude.{◌≡◌, [], ◌++◌, IfErr, OnOk, false};
ghost use Rattle.machine_core.specs.obj_layout.Storing.{SameNumbers};
ghost use Rattle.machine_core.specs.ps_stepping.Config.{Config};
ghost use Rattle.machine_core.specs.Holding.{Holds, IsSound};
ghost use Rattle.machine_core.specs.Naming.{NamesObjects};
ghost use Rattle.machine_core.specs.Stepped.{text_of, IsItem};
ghost use Rattle.machine_run.specs.Ran.{IsCause, LeavesAll, Ran};
ghost use Rattle.machine_run.specs.inside.Advancing.{Advances, BlamesCode, CausedBy, SendsOn, advanced_where, Reports, StaysAlive, WhereOn};

use crate::steps::step;
use crate::tell;
use machine_core::swizzle::fault::SwizzleFault;
use machine_core::{Machine, RunEnd, Stepped};
use vault_output::Output;
use vault_output::obj_layout::vault::{Vault, VaultFault};

// In so many steps a turn is taken, or the run ends: code that takes no turn goes forward in a body, of fewer than 2^32 bytes, or comes back to one that
// waits, of which there are at most 2,000.
const STEPS_IN_A_TURN: u64 = 1 << 43;

// How far a step came.
#[derive(Clone, Copy)]
enum Advanced {
    // The run goes on.
    On,
    // The run is at the machine's end.
    Ended,
    // The run broke off for the machine's fault.
    Broke,
    // The output failed.
    Failed,
}

// One step, and what it writes. What is pending goes out at a turn.
#[inline(always)]
fn advance<V: Vault>(m: &mut Machine, vault: &mut V, output: &mut Output) -> Advanced
    requires sound { IsSound m.old }
    requires names { NamesObjects m.old }
    requires alive { V.alive vault.old }
    ensures advances { Advances (V.outside vault.old) (V.outside vault.new) output.old output.new m.old m.new result }
    ensures sound { WhereOn result (IsSound m.new) }
    ensures names { WhereOn result (NamesObjects m.new) }
    ensures leaves { LeavesAll (V.outside vault.old) (V.outside vault.new) }
    ensures caused { CausedBy (V.outside vault.old) (V.outside vault.new) m.new result }
    ensures numbers { SameNumbers V.used_words V.directory_at V.most_words V.access vault.old vault.new }
    ensures alive { StaysAlive result (V.alive vault.new) }
{
    let own = m.at;
    match step(m, vault) {
        Stepped::Quiet => Advanced::On,
        Stepped::Turns => {
            m.objects.sound();
            on_where(turned(vault, output))
        }
        Stepped::Writes => {
            m.objects.sound();
            on_where(wrote(m, vault, output))
        }
        Stepped::Halts => Advanced::Ended,
        Stepped::Breaks => Advanced::Broke,
        Stepped::Damaged => {
            blame_code(m, own);
            Advanced::Broke
        }
    }
}

/// The machine's fault is that the code that runs is damaged at this offset. It stands apart so that a step clears no memory for it.
#[inline(never)]
pub fn blame_code(m: &mut Machine, at: u32)
    requires { NamesObjects m.old }
    ensures fault { BlamesCode m.old at m.new.fault }
    ensures rest { m.new ≡ record m.old { fault = m.new.fault } }
{
    m.fault = code_damage(m, at);
}

/// The code that runs is damaged at this offset: the fault has its PID, which is 0 where it has none, the offset, and how many bytes the code has.
#[inline(never)]
pub fn code_damage(m: &Machine, at: u32) -> SwizzleFault
    requires { NamesObjects m.now }
    ensures { BlamesCode m.now at result }
{
    SwizzleFault::Vault(VaultFault::Damaged {
        at: m.objects.pid_of(m.code),
        found: u64::from(at),
        wanted: u64::from(m.place.count),
    })
}

// The run goes on where the output didn't fail.
#[inline(always)]
fn on_where(sent: bool) -> Advanced
    ensures { result ≡ advanced_where sent }
{
    if sent { Advanced::On } else { Advanced::Failed }
}

/// What is pending goes out at a turn; mostly nothing is. False where the output failed.
#[inline(always)]
pub fn turned<V: Vault>(vault: &mut V, output: &mut Output) -> bool
    requires { V.alive vault.old }
    ensures sends { SendsOn (V.outside vault.old) (V.outside vault.new) output.old output.new result }
    ensures leaves { LeavesAll (V.outside vault.old) (V.outside vault.new) }
    ensures cleared { result ≡ false → output.new ≡ [] }
    ensures numbers { SameNumbers V.used_words V.directory_at V.most_words V.access vault.old vault.new }
    ensures alive { StaysAlive (advanced_where result) (V.alive vault.new) }
{
    if output.owed().is_empty() {
        return true;
    }
    let_go(vault, output)
}

// What is pending goes out. False where the output failed.
#[inline(never)]
fn let_go<V: Vault>(vault: &mut V, output: &mut Output) -> bool
    requires { V.alive vault.old }
    ensures sends { SendsOn (V.outside vault.old) (V.outside vault.new) output.old output.new result }
    ensures leaves { LeavesAll (V.outside vault.old) (V.outside vault.new) }
    ensures cleared { result ≡ false → output.new ≡ [] }
    ensures numbers { SameNumbers V.used_words V.directory_at V.most_words V.access vault.old vault.new }
    ensures alive { StaysAlive (advanced_where result) (V.alive vault.new) }
{
    match output.flush(vault) {
        Ok(()) => true,
        Err(_) => false,
    }
}

/// Writes the machine's write. False where the output failed.
#[inline(never)]
pub fn wrote<V: Vault>(m: &Machine, vault: &mut V, output: &mut Output) -> bool
    requires alive { V.alive vault.old }
    requires item { IsItem m.now.objects m.now.writing.item }
    ensures sends { SendsOn (V.outside vault.old) (V.outside vault.new) (output.old ++ text_of m.now.objects m.now.writing) output.new result }
    ensures leaves { LeavesAll (V.outside vault.old) (V.outside vault.new) }
    ensures cleared { result ≡ false → output.new ≡ [] }
    ensures numbers { SameNumbers V.used_words V.directory_at V.most_words V.access vault.old vault.new }
    ensures alive { StaysAlive (advanced_where result) (V.alive vault.new) }
{
    match tell::writing(output, vault, &m.objects, m.writing) {
        Ok(()) => true,
        Err(_) => false,
    }
}

/// Writes the report of an end, after what is pending.
pub fn finish<V: Vault>(
    end: RunEnd,
    vault: &mut V,
    output: &mut Output,
) -> Result<RunEnd, SwizzleFault>
    requires { V.alive vault.old }
    ensures reports { Reports (V.outside vault.old) (V.outside vault.new) output.old output.new end result }
    ensures leaves { LeavesAll (V.outside vault.old) (V.outside vault.new) }
    ensures numbers { SameNumbers V.used_words V.directory_at V.most_words V.access vault.old vault.new }
    ensures alive { OnOk result (V.alive vault.new) }
{
    match tell::report(output, vault, end) {
        Ok(()) => Ok(end),
        Err(fault) => Err(SwizzleFault::Vault(fault)),
    }
}

/// Runs a machine to its end, and outputs what it writes and the report of its end; what is pending goes out at each turn and where the buffer is full, and
/// the rest is pending after the run. It takes no memory. Where the run breaks off, the fault says why: the area has no room for an object, the device
/// failed, an object that was to be fetched or the code is damaged, or the output failed; in that last case nothing is pending. It always ends. After a
/// fault the machine is of no use until a unit is loaded.
pub fn run<V: Vault>(
    m: &mut Machine,
    vault: &mut V,
    output: &mut Output,
) -> Result<RunEnd, SwizzleFault>
    requires sound { IsSound m.old }
    requires names { NamesObjects m.old }
    requires alive { V.alive vault.old }
    ensures ran { (c : Config) → Holds (V.outside vault.old) m.old c
        → Ran (V.outside vault.old) (V.outside vault.new) output.old output.new m.old.objects.size c result }
    ensures leaves { LeavesAll (V.outside vault.old) (V.outside vault.new) }
    ensures caused { IfErr result (IsCause (V.outside vault.old) (V.outside vault.new)) }
    ensures numbers { SameNumbers V.used_words V.directory_at V.most_words V.access vault.old vault.new }
    ensures alive { OnOk result (V.alive vault.new) }
{
    let mut turns = m.turns;
    let mut steps = STEPS_IN_A_TURN;
    m.objects.sound();
    loop {
        let advanced = advance(m, vault, output);
        m.objects.sound();
        match advanced {
            Advanced::On => {
                if steps > 1 {
                    steps -= 1;
                    continue;
                }
                if m.turns >= turns {
                    return Err(code_damage(m, m.at));
                }
                turns = m.turns;
                steps = STEPS_IN_A_TURN;
            }
            Advanced::Ended => return finish(m.end, vault, output),
            Advanced::Broke => return Err(m.fault),
            Advanced::Failed => return Err(SwizzleFault::Vault(VaultFault::Output)),
        }
    }
}
