//! The images of changed objects, put in place of the words that a vault holds.
ghost use Rattle.std.specs.Prelude.{◌≡◌, ◌+◌, ◌≤◌, [], ◌∷◌, filter, length, true, MatchResult, OnOk, nat_eq, ◌&&◌};
ghost use Rattle.swizzle.specs.obj_layout.Storing.{DeadIfErr, LacksPages, SameUsers};
ghost use Rattle.swizzle.specs.obj_layout.Kind.{kind_number};
ghost use Rattle.swizzle.specs.Heap.{IsHeld, header_at, object_at, is_reached, top_of};
ghost use Rattle.commit_images.specs.Images.{is_changed, changed_in};
ghost use Rattle.commit_images.specs.Staging.{Stages, AreReady, Overwrites, FailsOverwrite};

use crate::image::make_image;
use commit_walk::walk::{assigned_at, assigned_count, is_homed};
use swizzle::obj_layout::kind::Kind;
use swizzle::obj_layout::vault::{Vault, VaultFault};
use swizzle::swizzle::Swizzle;

// Whether the assigned object is written anew: it was stored before, and has a home or is a node that the walk has reached.
fn is_written_anew(sw: &Swizzle, object: u32, first: u64) -> bool
    requires { IsHeld sw.now object }
    ensures { result ≡ is_changed sw.now first object }
{
    let pid = sw.pid(object);
    if pid == 0 {
        return false;
    }
    if pid >= first {
        return false;
    }
    if is_homed(sw, object) {
        return true;
    }
    is_reached_node(sw, object)
}

// Whether the object is a node that the walk has reached.
fn is_reached_node(sw: &Swizzle, object: u32) -> bool
    requires { IsHeld sw.now object }
    ensures { result ≡ (nat_eq (kind_number (header_at sw.now object).kind) 8 && is_reached (object_at sw.now object)) }
{
    if !sw.is_kind(object, Kind::Node) {
        return false;
    }
    sw.header(object).flags / 2 % 2 == 1
}

// Puts the image of the object in place of its words, where it is changed; returns whether it is.
fn overwrite_one<V: Vault>(
    sw: &Swizzle,
    vault: &mut V,
    object: u32,
    first: u64,
    buffer: &mut [u64],
) -> Result<bool, VaultFault>
    requires alive { V.alive vault.old }
    requires writable { (V.access vault.old).writes ≡ true }
    requires held { IsHeld sw.now object }
    requires ready { AreReady sw.now (filter (is_changed sw.now first) (object ∷ [])) }
    requires room { top_of sw.now ≤ length buffer.old + 1 }
    ensures stored { MatchResult result
        (λ stored. (stored ≡ is_changed sw.now first object) × Overwrites sw.now (filter (is_changed sw.now first) (object ∷ [])) (V.outside vault.old) (V.outside vault.new))
        (FailsOverwrite sw.now (filter (is_changed sw.now first) (object ∷ [])) (V.outside vault.old) (V.outside vault.new)) }
    ensures stages { Stages (V.outside vault.old) (V.outside vault.new) }
    ensures pages { LacksPages (V.access vault.old) result }
    ensures numbers { (V.used_words vault.new ≡ V.used_words vault.old) × (V.directory_at vault.new ≡ V.directory_at vault.old) × (V.most_words vault.new ≡ V.most_words vault.old)
        × SameUsers (V.access vault.old) (V.access vault.new) }
    ensures alive { OnOk result (V.alive vault.new) }
    ensures dead { DeadIfErr (V.alive vault.new) result }
    ensures buffer { length buffer.new ≡ length buffer.old }
{
    if !is_written_anew(sw, object, first) {
        return Ok(false);
    }
    let count = make_image(sw, object, buffer);
    match vault.overwrite(sw.pid(object), &buffer[..count]) {
        Ok(()) => Ok(true),
        Err(fault) => Err(fault),
    }
}

/// Puts the images of the assigned objects in place of their words, where they were stored before: once each, in the order in which they were assigned.
/// `first` is the number of words that were used before. Of nodes just those are written that the walk has reached. Returns how many these are. Where a fault
/// comes, the vault isn't alive.
pub fn overwrite_all<V: Vault>(
    sw: &Swizzle,
    vault: &mut V,
    first: u64,
    buffer: &mut [u64],
) -> Result<u32, VaultFault>
    requires alive { V.alive vault.old }
    requires writable { (V.access vault.old).writes ≡ true }
    requires ready { AreReady sw.now (changed_in sw.now first) }
    requires room { top_of sw.now ≤ length buffer.old + 1 }
    ensures stored { MatchResult result
        (λ count. (count ≡ length (changed_in sw.now first)) × Overwrites sw.now (changed_in sw.now first) (V.outside vault.old) (V.outside vault.new))
        (FailsOverwrite sw.now (changed_in sw.now first) (V.outside vault.old) (V.outside vault.new)) }
    ensures stages { Stages (V.outside vault.old) (V.outside vault.new) }
    ensures pages { LacksPages (V.access vault.old) result }
    ensures numbers { (V.used_words vault.new ≡ V.used_words vault.old) × (V.directory_at vault.new ≡ V.directory_at vault.old) × (V.most_words vault.new ≡ V.most_words vault.old)
        × SameUsers (V.access vault.old) (V.access vault.new) }
    ensures alive { OnOk result (V.alive vault.new) }
    ensures dead { DeadIfErr (V.alive vault.new) result }
    ensures buffer { length buffer.new ≡ length buffer.old }
{
    let count = assigned_count(sw);
    let mut stored = 0;
    for place in 0..count {
        let object = assigned_at(sw, place);
        match overwrite_one(sw, vault, object, first, buffer) {
            Ok(is_stored) => stored += u32::from(is_stored),
            Err(fault) => return Err(fault),
        }
    }
    Ok(stored)
}
