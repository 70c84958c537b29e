//! The commit.
ghost use Rattle.std.specs.Prelude.{◌≡◌, ◌⊎◌, ◌+◌, ◌≤◌, [], true, false, length, IfSome, OnOk, OnErr};
ghost use Rattle.swizzle.specs.Heap.{IsHeld, top_of};
ghost use Rattle.swizzle.specs.obj_layout.Storing.{SameUsers};
ghost use Rattle.new_pids.specs.Giving.{AreBelow};
ghost use Rattle.reach_commit.specs.Becoming.{AreNewRoots};
ghost use Rattle.reach_commit.specs.Answers.{Decides, LeavesAll, Stores, Lacks};

use crate::decide::{has_work, refused};
use crate::store::store;
use commit_walk::homes::Source;
use swizzle::fault::SwizzleFault;
use swizzle::obj_layout::vault::Vault;
use swizzle::swizzle::Swizzle;

/// What a commit answers.
#[derive(Clone, Copy, PartialEq, Eq, Debug)]
pub enum CommitAnswer {
    /// No stored object was assigned, and no database was made. Nothing has changed.
    Nothing,
    /// So many objects became stored, and so many that were stored before were written anew. Nothing counts as assigned any more.
    Saved { fresh: u32, rewritten: u32 },
    /// This object was assigned, and its home isn't open for writing. Nothing has changed.
    NotWritable { object: u32, home: u64 },
}

/// Commits: what the databases that are open for writing reach becomes stored, with its homes, and what was assigned is stored anew; all of it at once, or
/// nothing. `writing` has those databases in the order in which they became open for writing, each with its root where it was made since the last commit;
/// `directory` is the object that names all databases, those that were made too. It is tested first whether there is something to do. The images are made in
/// the buffer, which has as many words as are used of the area; what it holds afterwards means nothing. It takes no memory and fetches nothing. With no database open for
/// writing it stores nothing, and the vault needn't be one that may be written. After a fault the vault isn't alive, and the run ends: the area has the new PIDs, and a crash leaves what it could leave before, or all that was to be stored.
pub fn commit<V: Vault>(
    sw: &mut Swizzle,
    vault: &mut V,
    writing: &[Source],
    directory: Option<u32>,
    buffer: &mut [u64],
) -> Result<CommitAnswer, SwizzleFault>
    requires alive { V.alive vault.old }
    requires writes { (writing.now ≡ []) ⊎ ((V.access vault.old).writes ≡ true) }
    requires empty { sw.old.reached ≡ [] }
    requires roots { AreNewRoots sw.old writing.now }
    requires directory { IfSome directory (IsHeld sw.old) }
    requires below { AreBelow sw.old (V.used_words vault.old) }
    requires room { top_of sw.old ≤ length buffer.old + 1 }
    ensures decides { Decides sw.old writing.now result }
    ensures still { LeavesAll sw.old sw.new vault.old vault.new result }
    ensures stores { Stores sw.old sw.new writing.now directory (V.outside vault.old) (V.outside vault.new) (V.used_words vault.old) (V.used_words vault.new) (V.most_words vault.old) (V.directory_at vault.new) result }
    ensures most { V.most_words vault.new ≡ V.most_words vault.old }
    ensures users { SameUsers (V.access vault.old) (V.access vault.new) }
    ensures unstaged { OnOk result ((V.access vault.old).staged ≡ false → V.access vault.new ≡ V.access vault.old) }
    ensures pages { Lacks (V.access vault.old) result }
    ensures alive { OnOk result (V.alive vault.new) }
    ensures dead { OnErr result (V.alive vault.new → ⊥) }
{
    if let Some(object) = refused(sw, writing) {
        sw.sound();
        return Ok(CommitAnswer::NotWritable {
            object,
            home: sw.num(object, 0),
        });
    }
    if !has_work(sw, writing) {
        return Ok(CommitAnswer::Nothing);
    }
    match store(sw, vault, writing, directory, buffer) {
        Ok(saved) => Ok(CommitAnswer::Saved {
            fresh: saved.fresh,
            rewritten: saved.rewritten,
        }),
        Err(fault) => Err(SwizzleFault::Vault(fault)),
    }
}
