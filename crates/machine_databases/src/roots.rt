//! Objects are pushed that a call on databases answers: the roots of databases, which may become open for writing then.
ghost use Rattle.std.specs.Prelude.{◌<◌, length, Some};
ghost use Rattle.machine_core.specs.ps_stepping.Config.{frame_words};
ghost use Rattle.machine_core.specs.swizzle.Heap.{IsHeld};
ghost use Rattle.machine_core.specs.joint_held.db_dir.Directories.{IsShaped};
ghost use Rattle.machine_core.specs.joint_held.Opening.{and_source};
ghost use Rattle.machine_core.specs.Holding.{IsSound};
ghost use Rattle.machine_core.specs.Naming.{NamesObjects};
ghost use Rattle.machine_databases.specs.inside.Giving.{GivesRoot, HasPlace, HasPlaceFor, IsUnused, Pushes, and_opened};

use crate::sources::{open_as, open_for_writing};
use machine_core::obj_layout::vault::Vault;
use machine_core::{Machine, Stepped};

/// Pushes an object of the area, where there is room.
pub fn push_object<V: Vault>(m: &mut Machine, at: u32)
    requires sound { IsSound m.old }
    requires names { NamesObjects m.old }
    requires room { length m.old.refs.own < frame_words }
    requires held { IsHeld m.old.objects at }
    ensures { (v : V) → Pushes (V.outside v) at m.old m.new }
{
    m.objects.sound();
    m.refs.push_reserved(at);
}

/// Opens a database that was created for writing, of which the root is a new table, and which this directory names; and pushes its root. Damaged where there is no
/// place for it.
pub fn give_created<V: Vault>(m: &mut Machine, number: u32, root: u32, directory: u32) -> Stepped
    requires sound { IsSound m.old }
    requires names { NamesObjects m.old }
    requires room { length m.old.refs.own < frame_words }
    requires unused { IsUnused m.old.objects m.old.databases.writing.items root }
    requires shaped { IsShaped m.old.objects directory }
    ensures { (v w : V) → GivesRoot (V.outside v) (V.outside w) (HasPlace m.old.databases.writing.items) (and_source m.old.databases.writing.items number (Some root)) (Some directory) root m.old m.new result }
{
    if !open_for_writing(&mut m.databases, number, Some(root)) {
        return Stepped::Damaged;
    }
    m.databases.directory = Some(directory);
    push_object::<V>(m, root);
    Stepped::Quiet
}

/// Opens a database, and pushes its root. Damaged where there is no place for it.
pub fn give_opened<V: Vault>(m: &mut Machine, number: u32, root: u32, for_writing: bool) -> Stepped
    requires sound { IsSound m.old }
    requires names { NamesObjects m.old }
    requires room { length m.old.refs.own < frame_words }
    requires root { IsHeld m.old.objects root }
    ensures { (v w : V) → GivesRoot (V.outside v) (V.outside w) (HasPlaceFor m.old.databases.writing.items number for_writing) (and_opened m.old.databases.writing.items number for_writing) m.old.databases.directory root m.old m.new result }
{
    if !open_as(&mut m.databases, number, for_writing) {
        return Stepped::Damaged;
    }
    push_object::<V>(m, root);
    Stepped::Quiet
}
