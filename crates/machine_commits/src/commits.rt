//! The commit. Where the run has no room for its answer, the code is damaged.
ghost use Rattle.std.specs.Prelude.{◌≡◌, ◌+◌, ◌<◌, ◌≤◌, [], true, length, vec_capacity};
ghost use Rattle.machine_core.specs.obj_layout.Storing.{SameUsers};
ghost use Rattle.machine_core.specs.swizzle.Heap.{top_of};
ghost use Rattle.machine_core.specs.ps_stepping.Config.{frame_words};
ghost use Rattle.new_pids.specs.Giving.{AreBelow};
ghost use Rattle.machine_core.specs.Holding.{IsSound};
ghost use Rattle.machine_core.specs.Naming.{NamesObjects};
ghost use Rattle.machine_core.specs.Stepped.{UnlessBroken};
ghost use Rattle.machine_commits.specs.Committing.{FailsCommitting, IsSilent, TakesCommit};

use crate::answers::{push_nil, refuse_commit};
use crate::images::grow;
use crate::ready::make_ready;
use crate::roots::forget_roots;
use joint_commit::commit::commit as commit_run;
use joint_commit::joint_held::reach_commit::commit::CommitAnswer;
use machine_core::obj_layout::vault::Vault;
use machine_core::{FRAME_WORDS, Machine, Stepped};

/// Commits, and pushes nil, or an error record where an object was assigned whose home isn't open for writing (`docs/language.md`). Nothing is output. What was
/// reached and assigned is saved whole, or not at all where it breaks off: then the vault isn't alive, or there was no room for an error record, and the machine
/// is of no use. The images of objects are made in the buffer, which grows to the words that are used of the area; no memory is taken.
pub fn commit<V: Vault>(m: &mut Machine, vault: &mut V, images: &mut Vec<u64>) -> Stepped
    requires sound { IsSound m.old }
    requires names { NamesObjects m.old }
    requires alive { V.alive vault.old }
    requires writes { (V.access vault.old).writes ≡ true }
    requires room { m.old.objects.size ≤ vec_capacity images.old + 1 }
    ensures takes { TakesCommit (V.outside vault.old) (V.outside vault.new) m.old m.new result }
    ensures fails { FailsCommitting (V.outside vault.old) (V.outside vault.new) (V.access vault.old) result m.new }
    ensures silent { IsSilent (V.outside vault.old) (V.outside vault.new) }
    ensures most { V.most_words vault.new ≡ V.most_words vault.old }
    ensures users { SameUsers (V.access vault.old) (V.access vault.new) }
    ensures alive { UnlessBroken result (V.alive vault.new) }
    ensures room { vec_capacity images.new ≡ vec_capacity images.old }
{
    if m.refs.own().len() >= FRAME_WORDS {
        return Stepped::Damaged;
    }
    m.objects.sound();
    let top = m.objects.top();
    grow(images, top as usize - 1);
    save(m, vault, images)
}

// Commits where there is room on the stack for the answer, and in the buffer for an image.
fn save<V: Vault>(m: &mut Machine, vault: &mut V, images: &mut [u64]) -> Stepped
    requires sound { IsSound m.old }
    requires names { NamesObjects m.old }
    requires stack { length m.old.refs.own < frame_words }
    requires alive { V.alive vault.old }
    requires writes { (V.access vault.old).writes ≡ true }
    requires room { top_of m.old.objects ≤ length images.old + 1 }
    ensures takes { TakesCommit (V.outside vault.old) (V.outside vault.new) m.old m.new result }
    ensures fails { FailsCommitting (V.outside vault.old) (V.outside vault.new) (V.access vault.old) result m.new }
    ensures silent { IsSilent (V.outside vault.old) (V.outside vault.new) }
    ensures most { V.most_words vault.new ≡ V.most_words vault.old }
    ensures users { SameUsers (V.access vault.old) (V.access vault.new) }
    ensures alive { UnlessBroken result (V.alive vault.new) }
{
    m.objects.sound();
    match make_ready(m, vault) {
        Ok(()) => {
            m.objects.sound();
            save_ready(m, vault, images)
        }
        Err(fault) => {
            m.objects.sound();
            m.fault = fault;
            Stepped::Breaks
        }
    }
}

// And where nothing is noted as reached, and each PID is below the words that are used.
fn save_ready<V: Vault>(m: &mut Machine, vault: &mut V, images: &mut [u64]) -> Stepped
    requires sound { IsSound m.old }
    requires names { NamesObjects m.old }
    requires stack { length m.old.refs.own < frame_words }
    requires alive { V.alive vault.old }
    requires writes { (V.access vault.old).writes ≡ true }
    requires empty { m.old.objects.reached ≡ [] }
    requires below { AreBelow m.old.objects (V.used_words vault.old) }
    requires room { top_of m.old.objects ≤ length images.old + 1 }
    ensures takes { TakesCommit (V.outside vault.old) (V.outside vault.new) m.old m.new result }
    ensures fails { FailsCommitting (V.outside vault.old) (V.outside vault.new) (V.access vault.old) result m.new }
    ensures silent { IsSilent (V.outside vault.old) (V.outside vault.new) }
    ensures most { V.most_words vault.new ≡ V.most_words vault.old }
    ensures users { SameUsers (V.access vault.old) (V.access vault.new) }
    ensures alive { UnlessBroken result (V.alive vault.new) }
{
    let directory = m.databases.directory;
    match commit_run(
        m.objects.area(),
        vault,
        &m.databases.writing,
        directory,
        images,
    ) {
        Ok(CommitAnswer::NotWritable { .. }) => refuse_commit(m, vault),
        Ok(CommitAnswer::Nothing) => {
            push_nil::<V>(m);
            Stepped::Quiet
        }
        Ok(CommitAnswer::Saved { .. }) => {
            forget_roots(&mut m.databases.writing);
            push_nil::<V>(m);
            Stepped::Quiet
        }
        Err(fault) => {
            m.fault = fault;
            Stepped::Breaks
        }
    }
}
