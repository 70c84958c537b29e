//! All images of a commit, stored and settled.
ghost use Rattle.std.specs.Prelude.{◌≡◌, ◌+◌, ◌<◌, ◌≤◌, ℕ, true, length, IfOk, IfErr, OnOk};
ghost use Rattle.swizzle.specs.obj_layout.Stored.{Space};
ghost use Rattle.swizzle.specs.obj_layout.Storing.{Becomes, Settles, DeadIfErr, SameUsers, all_settled, LacksPages};
ghost use Rattle.swizzle.specs.Heap.{top_of};
ghost use Rattle.commit_images.specs.Images.{words_of, with_images, new_in, changed_in};
ghost use Rattle.commit_images.specs.Staging.{AreReady, AreThere};
ghost use Rattle.commit_images.specs.Saved.{saved, saving, FailsSave};

use crate::append::append_all;
use crate::overwrite::overwrite_all;
use swizzle::obj_layout::vault::{Vault, VaultFault};
use swizzle::swizzle::Swizzle;

/// How many objects a commit has stored: those that are new, and those that were stored before and are written anew.
#[derive(Clone, Copy)]
pub struct Saved {
    pub fresh: u32,
    pub rewritten: u32,
}

/// Stores the images of new objects and of changed ones, once each, and settles once, with the directory that has this PID. Until it settles nothing that a
/// crash leaves has changed; from then on a crash leaves all of it or none. `first` is the number of words that were used before. Where a fault comes, the
/// vault isn't alive.
pub fn save<V: Vault>(
    sw: &Swizzle,
    vault: &mut V,
    first: u64,
    directory: u64,
    buffer: &mut [u64],
) -> Result<Saved, VaultFault>
    requires alive { V.alive vault.old }
    requires writable { (V.access vault.old).writes ≡ true }
    requires new { AreReady sw.now (new_in sw.now first) }
    requires changed { AreReady sw.now (changed_in sw.now first) }
    requires directory { directory < V.used_words vault.old + words_of sw.now (new_in sw.now first) }
    requires room { top_of sw.now ≤ length buffer.old + 1 }
    ensures counted { IfOk result (λ saved. (saved.fresh ≡ length (new_in sw.now first)) × (saved.rewritten ≡ length (changed_in sw.now first))) }
    ensures becomes { OnOk result (Becomes (V.outside vault.old) (V.outside vault.new) (saved sw.now (new_in sw.now first) (changed_in sw.now first) directory)) }
    ensures there { OnOk result ((space : Space) → (V.outside vault.old).contents space → AreThere sw.now (changed_in sw.now first) (with_images sw.now (new_in sw.now first) space)) }
    ensures settles { Settles (V.outside vault.old) (V.outside vault.new)
        (saving sw.now (new_in sw.now first) (changed_in sw.now first) (V.used_words vault.old + words_of sw.now (new_in sw.now first)))
        (saved sw.now (new_in sw.now first) (changed_in sw.now first) directory) result }
    ensures used { OnOk result (V.used_words vault.new ≡ V.used_words vault.old + words_of sw.now (new_in sw.now first)) }
    ensures room { OnOk result (1 ≤ length (new_in sw.now first) → V.used_words vault.new ≤ V.most_words vault.old) }
    ensures directory { OnOk result (V.directory_at vault.new ≡ directory) }
    ensures most { V.most_words vault.new ≡ V.most_words vault.old }
    ensures users { SameUsers (V.access vault.old) (V.access vault.new) }
    ensures unstaged { OnOk result (V.access vault.new ≡ all_settled (V.access vault.old)) }
    ensures pages { LacksPages (V.access vault.old) result }
    ensures fault { IfErr result (FailsSave sw.now (new_in sw.now first) (changed_in sw.now first) (V.outside vault.old) (V.outside vault.new) (V.used_words vault.old) (V.most_words vault.old)) }
    ensures alive { OnOk result (V.alive vault.new) }
    ensures dead { DeadIfErr (V.alive vault.new) result }
{
    let fresh = match append_all(sw, vault, first, buffer) {
        Ok(count) => count,
        Err(fault) => return Err(fault),
    };
    let rewritten = match overwrite_all(sw, vault, first, buffer) {
        Ok(count) => count,
        Err(fault) => return Err(fault),
    };
    match vault.settle(directory) {
        Ok(()) => Ok(Saved { fresh, rewritten }),
        Err(fault) => Err(fault),
    }
}
