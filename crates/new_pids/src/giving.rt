//! PIDs for all objects of a list.
ghost use Rattle.std.specs.Prelude.{◌≡◌, ◌+◌, ◌<◌, ◌≤◌, ◌^◌, ◌++◌, ◌∷◌, [], ℕ, List};
ghost use Rattle.joint_ops.specs.swizzle.Objects.{size_of as words_of};
ghost use Rattle.joint_ops.specs.swizzle.Heap.{Heap, IsHeld, object_at};
ghost use Rattle.new_pids.specs.Giving.{GivesAll, AreBelow, AreStoredBelow, Renamed};

use commit_walk::walk::{listed, listed_at};
use joint_ops::obj_layout::vault::Vault;
use joint_ops::swizzle::swizzle::Swizzle;

// How many words an object has.
fn word_count(sw: &Swizzle, object: u32) -> u64
    requires { IsHeld sw.now object }
    ensures words { result ≡ words_of (object_at sw.now object) }
    ensures some { 1 ≤ result }
    ensures small { result < 2 ^ 34 }
{
    4 + u64::from(sw.refs(object)) + u64::from(sw.nums(object))
}

// Gives the object this PID, where it has none, and returns the next one.
fn give_one(sw: &mut Swizzle, object: u32, next: u64) -> u64
    requires held { IsHeld sw.old object }
    requires below { AreBelow sw.old next }
    requires low { 1 ≤ next }
    requires high { next < 2 ^ 62 }
    ensures all { (old : Heap) (xs : List ℕ) (first : ℕ) → GivesAll old xs first sw.old next → GivesAll old (xs ++ object ∷ []) first sw.new result }
    ensures below { AreBelow sw.new result }
    ensures held { (x : ℕ) → IsHeld sw.old x → IsHeld sw.new x }
    ensures list { sw.new.reached ≡ sw.old.reached }
    ensures grows { (next ≤ result) × (result < next + 2 ^ 34) }
{
    sw.sound();
    if sw.pid(object) != 0 {
        return next;
    }
    let words = word_count(sw, object);
    sw.give_pid(object, next);
    next + words
}

/// Gives PIDs to what a walk has listed and has none, from `first` on, in the order of the list, each one after the words of the object before it; returns
/// the PID after the last one. All together they are one renaming, also over a vault whose PIDs are below the first. The vault is there for that clause
/// alone.
pub fn give_all<V: Vault>(sw: &mut Swizzle, vault: &V, first: u64) -> u64
    requires below { AreBelow sw.old first }
    requires low { 1 ≤ first }
    requires high { first < 2 ^ 60 }
    ensures given { GivesAll sw.old sw.old.reached first sw.new result }
    ensures renamed { AreStoredBelow (V.outside vault.now) first → Renamed sw.old sw.new (V.outside vault.now) }
    ensures below { AreBelow sw.new result }
    ensures list { sw.new.reached ≡ sw.old.reached }
{
    let _ = vault;
    sw.sound();
    let count = listed(sw);
    let mut next = first;
    for place in 0..count {
        let object = listed_at(sw, place);
        next = give_one(sw, object, next);
    }
    next
}
