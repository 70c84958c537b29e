//! The images of new objects, stored behind what a vault holds.
ghost use Rattle.std.specs.Prelude.{◌≡◌, ◌+◌, ◌≤◌, [], ◌∷◌, filter, length, true, MatchResult, OnOk};
ghost use Rattle.swizzle.specs.obj_layout.Storing.{DeadIfErr, SameUsers, LacksPages};
ghost use Rattle.swizzle.specs.Heap.{IsHeld, top_of};
ghost use Rattle.commit_images.specs.Images.{is_new, new_in};
ghost use Rattle.commit_images.specs.Staging.{Stages, AreReady, Appends, FailsAppend};

use crate::image::make_image;
use commit_walk::walk::{listed, listed_at};
use swizzle::obj_layout::vault::{Vault, VaultFault};
use swizzle::swizzle::Swizzle;

// Whether the object is new: its PID isn't below the words that were used before.
fn has_new_pid(sw: &Swizzle, object: u32, first: u64) -> bool
    requires { IsHeld sw.now object }
    ensures { result ≡ is_new sw.now first object }
{
    sw.pid(object) >= first
}

// Stores the image of the object, where it is new; returns whether it is.
fn append_one<V: Vault>(
    sw: &Swizzle,
    vault: &mut V,
    object: u32,
    first: u64,
    buffer: &mut [u64],
) -> Result<bool, VaultFault>
    requires alive { V.alive vault.old }
    requires writable { (V.access vault.old).writes ≡ true }
    requires held { IsHeld sw.now object }
    requires ready { AreReady sw.now (filter (is_new sw.now first) (object ∷ [])) }
    requires room { top_of sw.now ≤ length buffer.old + 1 }
    ensures stored { MatchResult result
        (λ stored. (stored ≡ is_new sw.now first object)
        × Appends sw.now (filter (is_new sw.now first) (object ∷ [])) (V.outside vault.old) (V.outside vault.new) (V.used_words vault.old) (V.used_words vault.new) (V.most_words vault.old))
        (FailsAppend sw.now (filter (is_new sw.now first) (object ∷ [])) (V.outside vault.old) (V.outside vault.new) (V.used_words vault.old) (V.most_words vault.old)) }
    ensures stages { Stages (V.outside vault.old) (V.outside vault.new) }
    ensures pages { LacksPages (V.access vault.old) result }
    ensures numbers { (V.directory_at vault.new ≡ V.directory_at vault.old) × (V.most_words vault.new ≡ V.most_words vault.old) × SameUsers (V.access vault.old) (V.access vault.new) }
    ensures alive { OnOk result (V.alive vault.new) }
    ensures dead { DeadIfErr (V.alive vault.new) result }
    ensures buffer { length buffer.new ≡ length buffer.old }
{
    if !has_new_pid(sw, object, first) {
        return Ok(false);
    }
    let count = make_image(sw, object, buffer);
    match vault.append(&buffer[..count]) {
        Ok(_) => Ok(true),
        Err(fault) => Err(fault),
    }
}

/// Stores the images of the objects that the walk has listed and whose PIDs aren't below `first`, the words that were used before: once each, in the order of
/// the list. Returns how many these are. The buffer holds one image at a time. Where a fault comes, the vault isn't alive.
pub fn append_all<V: Vault>(
    sw: &Swizzle,
    vault: &mut V,
    first: u64,
    buffer: &mut [u64],
) -> Result<u32, VaultFault>
    requires alive { V.alive vault.old }
    requires writable { (V.access vault.old).writes ≡ true }
    requires ready { AreReady sw.now (new_in sw.now first) }
    requires room { top_of sw.now ≤ length buffer.old + 1 }
    ensures stored { MatchResult result
        (λ count. (count ≡ length (new_in sw.now first))
        × Appends sw.now (new_in sw.now first) (V.outside vault.old) (V.outside vault.new) (V.used_words vault.old) (V.used_words vault.new) (V.most_words vault.old))
        (FailsAppend sw.now (new_in sw.now first) (V.outside vault.old) (V.outside vault.new) (V.used_words vault.old) (V.most_words vault.old)) }
    ensures stages { Stages (V.outside vault.old) (V.outside vault.new) }
    ensures pages { LacksPages (V.access vault.old) result }
    ensures numbers { (V.directory_at vault.new ≡ V.directory_at vault.old) × (V.most_words vault.new ≡ V.most_words vault.old) × SameUsers (V.access vault.old) (V.access vault.new) }
    ensures alive { OnOk result (V.alive vault.new) }
    ensures dead { DeadIfErr (V.alive vault.new) result }
    ensures buffer { length buffer.new ≡ length buffer.old }
{
    let count = listed(sw);
    let mut stored = 0;
    for place in 0..count {
        let object = listed_at(sw, place);
        match append_one(sw, vault, object, first, buffer) {
            Ok(is_stored) => stored += u32::from(is_stored),
            Err(fault) => return Err(fault),
        }
    }
    Ok(stored)
}
