//! The calls on databases.
ghost use Rattle.std.specs.Prelude.{List, ℕ, ◌≡◌, ◌+◌, ◌≤◌, true, vec_capacity};
ghost use Rattle.machine_core.specs.obj_layout.Storing.{SameNumbers};
ghost use Rattle.machine_core.specs.ps_heap.Library.{CreateDatabase, OpenDatabase};
ghost use Rattle.machine_core.specs.ps_stepping.Library.{call_on_heap};
ghost use Rattle.machine_core.specs.Holding.{IsSound};
ghost use Rattle.machine_core.specs.Naming.{NamesObjects};
ghost use Rattle.machine_commits.specs.Committing.{commits};
ghost use Rattle.ps_base.specs.declared.line.Line.{Line};
ghost use Rattle.session_run.specs.Ran.{GoesOn, SameLimits};
ghost use Rattle.session_run.specs.inside.Advancing.{CausedBy, Comes, StaysAlive, WhereOn};

use crate::advanced::Advanced;
use machine_commits::commits::commit;
use machine_commits::machine_databases::calls::{create_database, open_database};
use machine_core::obj_layout::vault::Vault;
use machine_core::{Machine, Stepped};
use machine_run::run::blame_code;
use vault_output::Output;

/// Creates a database.
#[inline(never)]
pub fn creates<V: Vault>(m: &mut Machine, vault: &mut V, own: u32) -> Advanced
    requires sound { IsSound m.old }
    requires names { NamesObjects m.old }
    requires alive { V.alive vault.old }
    ensures comes { (output : List ℕ) (line : Line) → Comes (V.outside vault.old) (V.outside vault.new) output output (call_on_heap CreateDatabase line) m.old m.new result }
    ensures sound { WhereOn result (IsSound m.new) }
    ensures names { WhereOn result (NamesObjects m.new) }
    ensures seen { GoesOn (V.outside vault.old) (V.outside vault.new) }
    ensures caused { CausedBy (V.outside vault.old) (V.outside vault.new) (V.access vault.old) m.new result }
    ensures numbers { SameNumbers V.used_words V.directory_at V.most_words V.access vault.old vault.new }
    ensures alive { StaysAlive result (V.alive vault.new) }
{
    match create_database(m, vault) {
        Stepped::Quiet => Advanced::On,
        Stepped::Breaks => Advanced::Broke,
        Stepped::Damaged | Stepped::Turns | Stepped::Writes | Stepped::Halts => {
            blame_code(m, own);
            Advanced::Broke
        }
    }
}

/// Opens a database.
#[inline(never)]
pub fn opens<V: Vault>(m: &mut Machine, vault: &mut V, own: u32) -> Advanced
    requires sound { IsSound m.old }
    requires names { NamesObjects m.old }
    requires alive { V.alive vault.old }
    ensures comes { (output : List ℕ) (line : Line) → Comes (V.outside vault.old) (V.outside vault.new) output output (call_on_heap OpenDatabase line) m.old m.new result }
    ensures sound { WhereOn result (IsSound m.new) }
    ensures names { WhereOn result (NamesObjects m.new) }
    ensures seen { GoesOn (V.outside vault.old) (V.outside vault.new) }
    ensures caused { CausedBy (V.outside vault.old) (V.outside vault.new) (V.access vault.old) m.new result }
    ensures numbers { SameNumbers V.used_words V.directory_at V.most_words V.access vault.old vault.new }
    ensures alive { StaysAlive result (V.alive vault.new) }
{
    match open_database(m, vault) {
        Stepped::Quiet => Advanced::On,
        Stepped::Breaks => Advanced::Broke,
        Stepped::Damaged | Stepped::Turns | Stepped::Writes | Stepped::Halts => {
            blame_code(m, own);
            Advanced::Broke
        }
    }
}

/// Commits, once what is pending went out.
#[inline(never)]
pub fn commits<V: Vault>(
    m: &mut Machine,
    vault: &mut V,
    output: &mut Output,
    images: &mut Vec<u64>,
    own: u32,
) -> Advanced
    requires sound { IsSound m.old }
    requires names { NamesObjects m.old }
    requires alive { V.alive vault.old }
    requires writes { (V.access vault.old).writes ≡ true }
    requires room { m.old.objects.size ≤ vec_capacity images.old + 1 }
    ensures comes { Comes (V.outside vault.old) (V.outside vault.new) output.old output.new commits m.old m.new result }
    ensures sound { WhereOn result (IsSound m.new) }
    ensures names { WhereOn result (NamesObjects m.new) }
    ensures seen { GoesOn (V.outside vault.old) (V.outside vault.new) }
    ensures caused { CausedBy (V.outside vault.old) (V.outside vault.new) (V.access vault.old) m.new result }
    ensures limits { SameLimits V.most_words V.access vault.old vault.new }
    ensures room { vec_capacity images.new ≡ vec_capacity images.old }
    ensures alive { StaysAlive result (V.alive vault.new) }
{
    m.objects.sound();
    match output.flush(vault) {
        Ok(()) => {}
        Err(_) => return Advanced::Failed,
    }
    match commit(m, vault, images) {
        Stepped::Quiet => Advanced::On,
        Stepped::Breaks => Advanced::Broke,
        Stepped::Damaged | Stepped::Turns | Stepped::Writes | Stepped::Halts => {
            blame_code(m, own);
            Advanced::Broke
        }
    }
}
