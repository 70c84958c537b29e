//! Stores what a commit stores.
ghost use Rattle.std.specs.Prelude.{◌≡◌, ◌+◌, ◌≤◌, [], true, length, IfSome, OnOk, MatchResult};
ghost use Rattle.swizzle.specs.obj_layout.Storing.{DeadIfErr, SameUsers, all_settled, LacksPages};
ghost use Rattle.swizzle.specs.Heap.{IsHeap, IsHeld, top_of};
ghost use Rattle.new_pids.specs.Giving.{AreBelow};
ghost use Rattle.reach_commit.specs.Deciding.{AreWritable};
ghost use Rattle.reach_commit.specs.Becoming.{AreNewRoots};
ghost use Rattle.reach_commit.specs.Committing.{Saves, BreaksOff, pid_of};
ghost use Rattle.reach_commit.specs.Ready.{IsReady};
ghost use Rattle.reach_commit.specs.Telling.{Moved};

use crate::reach::list_reached;
use commit_images::save::{Saved, save};
use commit_walk::homes::Source;
use new_pids::giving::give_all;
use swizzle::obj_layout::vault::{Vault, VaultFault};
use swizzle::swizzle::Swizzle;

// The PID of the object, 0 where there is none.
fn pid_of(sw: &Swizzle, object: Option<u32>) -> u64
    requires { IfSome object (IsHeld sw.now) }
    ensures { result ≡ pid_of sw.now object }
{
    match object {
        Some(at) => sw.pid(at),
        None => 0,
    }
}

// Lists what becomes stored and gives it PIDs from the words on that are used, whose number is returned. The vault is there for a clause alone.
fn make_ready<V: Vault>(
    sw: &mut Swizzle,
    vault: &V,
    writing: &[Source],
    directory: Option<u32>,
) -> u64
    requires writable { AreWritable sw.old writing.now }
    requires empty { sw.old.reached ≡ [] }
    requires roots { AreNewRoots sw.old writing.now }
    requires directory { IfSome directory (IsHeld sw.old) }
    requires below { AreBelow sw.old (V.used_words vault.now) }
    ensures first { result ≡ V.used_words vault.now }
    ensures ready { IsReady sw.old sw.new writing.now directory result }
    ensures moved { Moved sw.old sw.new (V.outside vault.now) (V.outside vault.now) }
    ensures sound { IsHeap sw.new }
    ensures was { IsHeap sw.old }
{
    sw.sound();
    list_reached(sw, writing, directory);
    sw.sound();
    let first = vault.used();
    let _next = give_all(sw, vault, first);
    sw.sound();
    first
}

/// Stores what is reached and what was changed, all of it at once, and then notes nothing as assigned. Where a fault comes, the area has the new PIDs, and the
/// vault isn't alive.
pub fn store<V: Vault>(
    sw: &mut Swizzle,
    vault: &mut V,
    writing: &[Source],
    directory: Option<u32>,
    buffer: &mut [u64],
) -> Result<Saved, VaultFault>
    requires alive { V.alive vault.old }
    requires writes { (V.access vault.old).writes ≡ true }
    requires writable { AreWritable sw.old writing.now }
    requires empty { sw.old.reached ≡ [] }
    requires roots { AreNewRoots sw.old writing.now }
    requires directory { IfSome directory (IsHeld sw.old) }
    requires below { AreBelow sw.old (V.used_words vault.old) }
    requires room { top_of sw.old ≤ length buffer.old + 1 }
    ensures stored { MatchResult result
        (λ saved. Saves sw.old sw.new writing.now directory (V.outside vault.old) (V.outside vault.new) (V.used_words vault.old) (V.used_words vault.new) (V.most_words vault.old) (V.directory_at vault.new) saved.fresh saved.rewritten)
        (BreaksOff sw.old sw.new writing.now directory (V.outside vault.old) (V.outside vault.new) (V.used_words vault.old) (V.most_words vault.old)) }
    ensures most { V.most_words vault.new ≡ V.most_words vault.old }
    ensures users { SameUsers (V.access vault.old) (V.access vault.new) }
    ensures unstaged { OnOk result (V.access vault.new ≡ all_settled (V.access vault.old)) }
    ensures pages { LacksPages (V.access vault.old) result }
    ensures alive { OnOk result (V.alive vault.new) }
    ensures dead { DeadIfErr (V.alive vault.new) result }
{
    let first = make_ready(sw, vault, writing, directory);
    let named = pid_of(sw, directory);
    let saved = match save(sw, vault, first, named, buffer) {
        Ok(saved) => saved,
        Err(fault) => return Err(fault),
    };
    sw.clear_assigned();
    sw.clear_reached();
    Ok(saved)
}
