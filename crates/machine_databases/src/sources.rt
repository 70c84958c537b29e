//! The databases that are open for writing.
ghost use Rattle.std.specs.Prelude.{◌≡◌, ◌≤◌, nat_eq, vec_capacity};
ghost use Rattle.std.specs.List.{list_any};
ghost use Rattle.machine_core.specs.ps_heap.ps_base.Limits.{most_databases};
ghost use Rattle.machine_databases.specs.inside.Giving.{OpensAs, OpensOne};

use joint_held::reach_commit::commit_walk::homes::Source;
use machine_core::{Databases, MOST_DATABASES};

/// Whether a database is open for writing.
pub fn is_open(databases: &Databases, number: u32) -> bool
    ensures { result ≡ list_any (λ source. nat_eq number source.number) databases.now.writing.items }
{
    let number = u64::from(number);
    databases
        .writing
        .iter()
        .any(|source| number == source.number)
}

/// Opens one more database for writing, with its root where it was made. False where there is no place for it.
pub fn open_for_writing(databases: &mut Databases, number: u32, root: Option<u32>) -> bool
    requires { most_databases ≤ vec_capacity databases.old.writing }
    ensures { OpensOne databases.old databases.new number root result }
{
    if databases.writing.len() >= MOST_DATABASES {
        return false;
    }
    databases.writing.push_reserved(Source {
        number: u64::from(number),
        root,
    });
    true
}

/// Opens a database, which may be open for writing already; for reading nothing changes. False where there is no place for it.
pub fn open_as(databases: &mut Databases, number: u32, for_writing: bool) -> bool
    requires { most_databases ≤ vec_capacity databases.old.writing }
    ensures { OpensAs databases.old databases.new number for_writing result }
{
    if !for_writing {
        return true;
    }
    if is_open(databases, number) {
        return true;
    }
    open_for_writing(databases, number, None)
}
