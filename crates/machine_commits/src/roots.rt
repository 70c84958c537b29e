//! After a commit that saved no database is new.
ghost use Rattle.std.specs.Prelude.{◌≡◌, vec_capacity};
ghost use Rattle.joint_commit.specs.Saving.{none_made};

use machine_core::Source;

/// No database that is open for writing has a root of its own any more.
pub fn forget_roots(writing: &mut Vec<Source>)
    ensures none { writing.new.items ≡ none_made writing.old.items }
    ensures room { vec_capacity writing.new ≡ vec_capacity writing.old }
{
    for source in writing.iter_mut() {
        source.root = None;
    }
}
