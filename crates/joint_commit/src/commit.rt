//! The commit.
ghost use Rattle.std.specs.Prelude.{◌≡◌, ◌⊎◌, ◌+◌, ◌≤◌, List, [], true, false, length, IfSome, OnOk, OnErr};
ghost use Rattle.swizzle.specs.obj_layout.declared.reference.Reference.{Reference};
ghost use Rattle.swizzle.specs.obj_layout.Storing.{SameUsers};
ghost use Rattle.swizzle.specs.Heap.{IsHeld, top_of};
ghost use Rattle.reach_commit.specs.Becoming.{AreNewRoots};
ghost use Rattle.reach_commit.specs.Answers.{Decides, LeavesAll, Stores, Lacks};
ghost use Rattle.joint_held.specs.joint_ops.ps_heap.Held.{Held};
ghost use Rattle.joint_held.specs.Held.{HoldsRun};
ghost use Rattle.joint_commit.specs.Answers.{CommitsHeld};
ghost use Rattle.new_pids.specs.Giving.{AreBelow};

use commit_walk::homes::Source;
use reach_commit::commit::CommitAnswer;
use swizzle::fault::SwizzleFault;
use swizzle::obj_layout::vault::Vault;
use swizzle::swizzle::Swizzle;

/// Commits, as `reach_commit::commit::commit` does. Where area and vault hold a run, it does what the meaning's commit of this run does: it is refused where that
/// is, has nothing to do where that has nothing, and else what it leaves on the vault stands for the heap that the meaning saves, at every moment whole or not at
/// all; area and vault hold the run as it is then.
pub fn commit<V: Vault>(
    sw: &mut Swizzle,
    vault: &mut V,
    writing: &[Source],
    directory: Option<u32>,
    buffer: &mut [u64],
) -> Result<CommitAnswer, SwizzleFault>
    requires alive { V.alive vault.old }
    requires writes { (writing.now ≡ []) ⊎ ((V.access vault.old).writes ≡ true) }
    requires empty { sw.old.reached ≡ [] }
    requires roots { AreNewRoots sw.old writing.now }
    requires directory { IfSome directory (IsHeld sw.old) }
    requires below { AreBelow sw.old (V.used_words vault.old) }
    requires room { top_of sw.old ≤ length buffer.old + 1 }
    ensures held { (names : List Reference) (d : Held) → HoldsRun sw.old (V.outside vault.old) names writing.now directory d →
        CommitsHeld sw.old sw.new (V.outside vault.old) (V.outside vault.new) names writing.now directory d result }
    ensures decides { Decides sw.old writing.now result }
    ensures still { LeavesAll sw.old sw.new vault.old vault.new result }
    ensures stores { Stores sw.old sw.new writing.now directory (V.outside vault.old) (V.outside vault.new) (V.used_words vault.old) (V.used_words vault.new) (V.most_words vault.old) (V.directory_at vault.new) result }
    ensures most { V.most_words vault.new ≡ V.most_words vault.old }
    ensures users { SameUsers (V.access vault.old) (V.access vault.new) }
    ensures unstaged { OnOk result ((V.access vault.old).staged ≡ false → V.access vault.new ≡ V.access vault.old) }
    ensures pages { Lacks (V.access vault.old) result }
    ensures alive { OnOk result (V.alive vault.new) }
    ensures dead { OnErr result (V.alive vault.new → ⊥) }
{
    sw.sound();
    let answer = reach_commit::commit::commit(sw, vault, writing, directory, buffer);
    sw.sound();
    answer
}
