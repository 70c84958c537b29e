//! What the walk of one database lists.
ghost use Rattle.std.specs.Prelude.{◌≡◌, ◌<◌, ◌≤◌, ◌^◌, ℕ, get_or, length, true, Some, IfSome, MatchOption};
ghost use Rattle.swizzle.specs.Fetched.{IsLocal};
ghost use Rattle.swizzle.specs.Heap.{IsHeld, header_at};
ghost use Rattle.commit_walk.specs.Walk.{Names, Goes, May, IsAt, StartsAt, Lists, Searches, Walks, is_walked, has_home};

use crate::nowhere::Nowhere;
use swizzle::obj_layout::kind::Kind;
use swizzle::obj_layout::reference::Reference;
use swizzle::swizzle::Swizzle;

// Whether the walk goes to this object.
fn goes_to(sw: &Swizzle, object: u32) -> bool
    requires { IsHeld sw.now object }
    ensures { result ≡ is_walked (header_at sw.now object) }
{
    if sw.pid(object) == 0 {
        return true;
    }
    sw.is_kind(object, Kind::Node)
}

// Notes an object, where the walk goes to it.
fn reach_object(sw: &mut Swizzle, object: u32)
    requires { IsHeld sw.old object }
    ensures { Lists sw.old sw.new (λ y. (object ≡ y) × May sw.old y) }
{
    sw.sound();
    if goes_to(sw, object) {
        sw.reach(object);
    }
}

// The object of the area with this PID. Nothing is fetched.
fn find(sw: &mut Swizzle, pid: u64) -> Option<u32>
    requires low { 1 ≤ pid }
    requires high { pid < 2 ^ 63 }
    ensures found { MatchOption result ((y : ℕ) → IsLocal sw.old pid y → ⊥) (IsLocal sw.old pid) }
    ensures same { sw.new ≡ sw.old }
{
    sw.sound();
    let mut nowhere = Nowhere::new();
    match sw.touch_pid(&mut nowhere, pid) {
        Ok(at) => Some(at),
        Err(_) => None,
    }
}

// The object of the area that a slot names.
fn named(sw: &mut Swizzle, object: u32, slot: u32) -> Option<u32>
    requires held { IsHeld sw.old object }
    requires below { slot < (header_at sw.old object).refs }
    ensures named { MatchOption result ((y : ℕ) → Names sw.old object slot y → ⊥) (Names sw.old object slot) }
    ensures same { sw.new ≡ sw.old }
{
    sw.sound();
    match sw.peek(object, slot) {
        Reference::Nil => None,
        Reference::Local(to) => Some(to),
        Reference::Pid(pid) => find(sw, pid),
    }
}

// Notes what a slot names.
fn reach_slot(sw: &mut Swizzle, object: u32, slot: u32)
    requires held { IsHeld sw.old object }
    requires below { slot < (header_at sw.old object).refs }
    ensures { Lists sw.old sw.new (λ y. Names sw.old object slot y × May sw.old y) }
{
    sw.sound();
    if let Some(to) = named(sw, object, slot) {
        reach_object(sw, to);
    }
}

// Notes what an object refers to.
fn reach_refs(sw: &mut Swizzle, object: u32)
    requires { IsHeld sw.old object }
    ensures { Lists sw.old sw.new (λ y. Goes sw.old object y × May sw.old y) }
{
    let count = sw.refs(object);
    for slot in 0..count {
        reach_slot(sw, object, slot);
    }
}

/// How many objects are listed.
pub fn listed(sw: &Swizzle) -> u32
    ensures count { result ≡ length sw.now.reached }
    ensures below { result < sw.now.size }
{
    sw.sound();
    sw.reached().len() as u32
}

/// The object in a place of the list.
pub fn listed_at(sw: &Swizzle, place: u32) -> u32
    requires { place < length sw.now.reached }
    ensures is { result ≡ get_or sw.now.reached place 0 }
    ensures held { IsHeld sw.now result }
{
    sw.sound();
    sw.reached()[place as usize]
}

// Goes on from the objects that are listed from a place on.
fn walk_from(sw: &mut Swizzle, from: u32)
    requires { from ≤ length sw.old.reached }
    ensures { Walks sw.old sw.new from }
{
    sw.sound();
    let mut next = from;
    while next < listed(sw) {
        let object = listed_at(sw, next);
        reach_refs(sw, object);
        next += 1;
    }
}

/// Whether objects of this object's kind have a home.
pub fn is_homed(sw: &Swizzle, object: u32) -> bool
    requires { IsHeld sw.now object }
    ensures { result ≡ has_home (header_at sw.now object) }
{
    if sw.is_kind(object, Kind::Structure) {
        return true;
    }
    if sw.is_kind(object, Kind::Vector) {
        return true;
    }
    if sw.is_kind(object, Kind::Scope) {
        return true;
    }
    sw.is_kind(object, Kind::Table)
}

// Whether the object is stored, with its home in this database.
fn is_at(sw: &Swizzle, object: u32, number: u64) -> bool
    requires { IsHeld sw.now object }
    ensures is { result ≡ true → IsAt sw.now number object }
    ensures all { IsAt sw.now number object → result ≡ true }
{
    sw.sound();
    if sw.pid(object) == 0 {
        return false;
    }
    if !is_homed(sw, object) {
        return false;
    }
    sw.num(object, 0) == number
}

// Notes the root of a database that was created.
fn reach_root(sw: &mut Swizzle, root: Option<u32>)
    requires { IfSome root (IsHeld sw.old) }
    ensures { Lists sw.old sw.new (λ y. (root ≡ Some y) × May sw.old y) }
{
    match root {
        Some(at) => reach_object(sw, at),
        None => {}
    }
}

// Notes what an assigned object of a database refers to.
fn reach_one(sw: &mut Swizzle, object: u32, number: u64)
    requires { IsHeld sw.old object }
    ensures { Lists sw.old sw.new (λ y. IsAt sw.old number object × Goes sw.old object y × May sw.old y) }
{
    if is_at(sw, object, number) {
        reach_refs(sw, object);
    }
}

/// The assigned object in a place of their list.
pub fn assigned_at(sw: &Swizzle, place: u32) -> u32
    requires { place < length sw.now.assigned }
    ensures is { result ≡ get_or sw.now.assigned place 0 }
    ensures held { IsHeld sw.now result }
{
    sw.sound();
    sw.assigned()[place as usize]
}

/// How many objects are assigned.
pub fn assigned_count(sw: &Swizzle) -> u32
    ensures { result ≡ length sw.now.assigned }
{
    sw.sound();
    sw.assigned().len() as u32
}

// Notes what the assigned objects of a database refer to.
fn reach_assigned(sw: &mut Swizzle, number: u64)
    ensures { Lists sw.old sw.new (λ y. StartsAt sw.old number sw.old.assigned (length sw.old.assigned) y × May sw.old y) }
{
    let count = assigned_count(sw);
    for place in 0..count {
        let object = assigned_at(sw, place);
        reach_one(sw, object, number);
    }
}

/// Lists what is reached of a database and isn't listed yet: from its root, where it was created, and after its assigned objects.
pub fn walk_database(sw: &mut Swizzle, number: u64, root: Option<u32>)
    requires { IfSome root (IsHeld sw.old) }
    ensures { Searches sw.old sw.new number root }
{
    sw.sound();
    let from = listed(sw);
    reach_root(sw, root);
    reach_assigned(sw, number);
    walk_from(sw, from);
}
