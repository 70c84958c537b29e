//! The homes of the objects that a walk lists.
ghost use Rattle.std.specs.Prelude.{◌≡◌, ◌<◌, ◌≤◌, ℕ, [], length, IfSome};
ghost use Rattle.swizzle.specs.Heap.{IsHeld};
ghost use Rattle.commit_walk.specs.Homes.{GivesHome, GivesHomes, IsHomedOne, IsHomed, AreRoots, OwnsRoot, OwnsRoots};

use crate::walk::{is_homed, listed, listed_at, walk_database};
use swizzle::swizzle::Swizzle;

/// A database that is open for writing: its number, from 1, and its root where it was created.
#[derive(Clone, Copy)]
pub struct Source {
    pub number: u64,
    pub root: Option<u32>,
}

// Gives an object its home, where it may have one.
fn give_home(sw: &mut Swizzle, object: u32, number: u64)
    requires { IsHeld sw.old object }
    ensures { GivesHome sw.old sw.new object number }
{
    sw.sound();
    if is_homed(sw, object) {
        sw.set_num(object, 0, number);
    }
}

// Gives those that are listed from a place on their home.
fn give_homes(sw: &mut Swizzle, from: u32, number: u64)
    requires { from ≤ length sw.old.reached }
    ensures { GivesHomes sw.old sw.new sw.old.reached from (length sw.old.reached) number }
{
    let count = listed(sw);
    for place in from..count {
        let object = listed_at(sw, place);
        give_home(sw, object, number);
    }
}

/// Lists what is reached of a database and isn't listed yet, and gives it its home there.
pub fn walk_one(sw: &mut Swizzle, number: u64, root: Option<u32>)
    requires { IfSome root (IsHeld sw.old) }
    ensures { IsHomedOne sw.old sw.new number root sw.old.reached sw.new.reached }
{
    let from = listed(sw);
    walk_database(sw, number, root);
    give_homes(sw, from, number);
}

/// Lists what is reached of all of these databases, in their order, and gives each object its home in the first one that reaches it.
pub fn walk_all(sw: &mut Swizzle, sources: &[Source])
    requires empty { sw.old.reached ≡ [] }
    requires roots { AreRoots sw.old sources.now }
    ensures { IsHomed sw.old sw.new sources.now (length sources.now) sw.new.reached }
{
    for source in sources {
        walk_one(sw, source.number, source.root);
    }
}

// Gives a root its own database as home.
fn own_root(sw: &mut Swizzle, root: Option<u32>, number: u64)
    requires { IfSome root (IsHeld sw.old) }
    ensures { OwnsRoot sw.old sw.new root number }
{
    match root {
        Some(at) => give_home(sw, at, number),
        None => {}
    }
}

/// Gives the roots of created databases their own databases as homes.
pub fn own_roots(sw: &mut Swizzle, sources: &[Source])
    requires { AreRoots sw.old sources.now }
    ensures { OwnsRoots sw.old sw.new sources.now (length sources.now) }
{
    for source in sources {
        own_root(sw, source.root, source.number);
    }
}
