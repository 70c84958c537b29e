//! Lists what becomes stored.
ghost use Rattle.std.specs.Prelude.{◌≡◌, [], IfSome};
ghost use Rattle.swizzle.specs.Heap.{IsHeld};
ghost use Rattle.reach_commit.specs.Becoming.{AreNewRoots, Lists};

use commit_walk::homes::{Source, own_roots, walk_all, walk_one};
use swizzle::swizzle::Swizzle;

/// Lists all that is reached from the databases that are open for writing, and from the directory, and gives each object that becomes stored its home. It
/// fetches nothing.
pub fn list_reached(sw: &mut Swizzle, writing: &[Source], directory: Option<u32>)
    requires empty { sw.old.reached ≡ [] }
    requires roots { AreNewRoots sw.old writing.now }
    requires directory { IfSome directory (IsHeld sw.old) }
    ensures { Lists sw.old sw.new writing.now directory }
{
    walk_all(sw, writing);
    walk_one(sw, 0, directory);
    own_roots(sw, writing);
}
