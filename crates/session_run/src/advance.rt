//! One step of a run.
ghost use Rattle.std.specs.Prelude.{◌≡◌, ◌+◌, ◌≤◌, true, vec_capacity};
ghost use Rattle.machine_core.specs.ps_stepping.Machine.{acts};
ghost use Rattle.machine_core.specs.Holding.{IsSound};
ghost use Rattle.machine_core.specs.Naming.{NamesObjects};
ghost use Rattle.session_run.specs.Ran.{GoesOn, SameLimits};
ghost use Rattle.session_run.specs.inside.Advancing.{Advances, CausedBy, Does, StaysAlive, WhereOn};

use crate::advanced::Advanced;
use crate::calls::{DatabaseCall, database_call};
use crate::databases::{commits, creates, opens};
use crate::plain::plain;
use machine_core::Machine;
use machine_core::obj_layout::vault::Vault;
use machine_run::run::blame_code;
use ps_base::instr::Instr;
use vault_output::Output;

/// One step, and what it writes. What is pending goes out at a turn, and before a commit.
#[inline(always)]
pub fn advance<V: Vault>(
    m: &mut Machine,
    vault: &mut V,
    output: &mut Output,
    images: &mut Vec<u64>,
) -> Advanced
    requires sound { IsSound m.old }
    requires names { NamesObjects m.old }
    requires alive { V.alive vault.old }
    requires writes { (V.access vault.old).writes ≡ true }
    requires room { m.old.objects.size ≤ vec_capacity images.old + 1 }
    ensures advances { Advances (V.outside vault.old) (V.outside vault.new) output.old output.new m.old m.new result }
    ensures sound { WhereOn result (IsSound m.new) }
    ensures names { WhereOn result (NamesObjects m.new) }
    ensures seen { GoesOn (V.outside vault.old) (V.outside vault.new) }
    ensures caused { CausedBy (V.outside vault.old) (V.outside vault.new) (V.access vault.old) m.new result }
    ensures limits { SameLimits V.most_words V.access vault.old vault.new }
    ensures room { vec_capacity images.new ≡ vec_capacity images.old }
    ensures alive { StaysAlive result (V.alive vault.new) }
{
    let own = m.at;
    m.objects.sound();
    match m.objects.instr_within(m.code, m.place, own) {
        Some((instr, after)) => {
            m.at = after;
            go(m, vault, output, images, own, instr)
        }
        None => {
            blame_code(m, own);
            Advanced::Broke
        }
    }
}

// Does what an instruction says, whose own offset this is. The machine stands after it already.
#[inline(always)]
fn go<V: Vault>(
    m: &mut Machine,
    vault: &mut V,
    output: &mut Output,
    images: &mut Vec<u64>,
    own: u32,
    instr: Instr,
) -> Advanced
    requires sound { IsSound m.old }
    requires names { NamesObjects m.old }
    requires alive { V.alive vault.old }
    requires writes { (V.access vault.old).writes ≡ true }
    requires room { m.old.objects.size ≤ vec_capacity images.old + 1 }
    ensures does { Does (V.outside vault.old) (V.outside vault.new) output.old output.new instr own m.old m.new result }
    ensures sound { WhereOn result (IsSound m.new) }
    ensures names { WhereOn result (NamesObjects m.new) }
    ensures seen { GoesOn (V.outside vault.old) (V.outside vault.new) }
    ensures caused { CausedBy (V.outside vault.old) (V.outside vault.new) (V.access vault.old) m.new result }
    ensures limits { SameLimits V.most_words V.access vault.old vault.new }
    ensures room { vec_capacity images.new ≡ vec_capacity images.old }
    ensures alive { StaysAlive result (V.alive vault.new) }
{
    match database_call(instr) {
        None => plain(m, vault, output, own, instr),
        Some(DatabaseCall::Create) => creates(m, vault, own),
        Some(DatabaseCall::Open) => opens(m, vault, own),
        Some(DatabaseCall::Commit) => commits(m, vault, output, images, own),
    }
}
