//! Whether a commit is refused, has nothing to do, or stores. Nothing changes.
ghost use Rattle.std.specs.Prelude.{ℕ, IfSome, MatchOption, MatchBool};
ghost use Rattle.swizzle.specs.Heap.{IsHeld, num_at};
ghost use Rattle.reach_commit.specs.Deciding.{IsHomed, IsAssigned, IsWriting, AreWritable, IsRefused, HasWork, IsIdle, IsMade};

use commit_walk::homes::Source;
use commit_walk::walk::{assigned_at, assigned_count, is_homed};
use swizzle::swizzle::Swizzle;

// Whether a database of this number is open for writing.
fn is_writing(writing: &[Source], number: u64) -> bool
    ensures { MatchBool result (IsWriting writing.now number) (IsWriting writing.now number → ⊥) }
{
    for source in writing {
        if source.number == number {
            return true;
        }
    }
    false
}

// Whether the object is stored, and at home somewhere.
fn is_at_home(sw: &Swizzle, object: u32) -> bool
    requires { IsHeld sw.now object }
    ensures { MatchBool result (IsHomed sw.now object) (IsHomed sw.now object → ⊥) }
{
    if sw.pid(object) == 0 {
        return false;
    }
    is_homed(sw, object)
}

// Whether the object is stored, and at home where nothing may be written.
fn is_closed(sw: &Swizzle, object: u32, writing: &[Source]) -> bool
    requires { IsHeld sw.now object }
    ensures { MatchBool result
        (IsHomed sw.now object × (IsWriting writing.now (num_at sw.now object 0) → ⊥))
        (IsHomed sw.now object → IsWriting writing.now (num_at sw.now object 0)) }
{
    if !is_at_home(sw, object) {
        return false;
    }
    sw.sound();
    !is_writing(writing, sw.num(object, 0))
}

/// The first assigned object that is stored and whose home isn't open for writing; None where there is none.
pub fn refused(sw: &Swizzle, writing: &[Source]) -> Option<u32>
    ensures held { IfSome result (IsHeld sw.now) }
    ensures refused { MatchOption result (AreWritable sw.now writing.now) (λ object. IsRefused sw.now writing.now object (num_at sw.now object 0)) }
{
    let count = assigned_count(sw);
    for place in 0..count {
        let object = assigned_at(sw, place);
        if is_closed(sw, object, writing) {
            return Some(object);
        }
    }
    None
}

// Whether an object is assigned that is stored and has a home.
fn is_assigned(sw: &Swizzle) -> bool
    ensures { MatchBool result ((x : ℕ) × IsAssigned sw.now x) ((x : ℕ) → IsAssigned sw.now x → ⊥) }
{
    let count = assigned_count(sw);
    for place in 0..count {
        let object = assigned_at(sw, place);
        if is_at_home(sw, object) {
            return true;
        }
    }
    false
}

// Whether a database was made.
fn is_made(writing: &[Source]) -> bool
    ensures { MatchBool result (IsMade writing.now) (IsMade writing.now → ⊥) }
{
    for source in writing {
        if source.root.is_some() {
            return true;
        }
    }
    false
}

/// Whether there is something to store: an assigned object that is stored and has a home, or a database that was made.
pub fn has_work(sw: &Swizzle, writing: &[Source]) -> bool
    ensures { MatchBool result (HasWork sw.now writing.now) (IsIdle sw.now writing.now) }
{
    if is_assigned(sw) {
        return true;
    }
    is_made(writing)
}
