//! What creating a database does with the texts that were popped: it asks, and is answered.
ghost use Rattle.std.specs.Prelude.{◌<◌, length};
ghost use Rattle.machine_core.specs.obj_layout.Storing.{SameNumbers};
ghost use Rattle.machine_core.specs.swizzle.Reading.{LeavesOutside};
ghost use Rattle.machine_core.specs.ps_stepping.Config.{frame_words};
ghost use Rattle.machine_core.specs.Failing.{FailsAsReading};
ghost use Rattle.machine_core.specs.Holding.{IsSound};
ghost use Rattle.machine_core.specs.Naming.{NamesObjects};
ghost use Rattle.machine_core.specs.Stepped.{UnlessBroken};
ghost use Rattle.machine_databases.specs.Asking.{knowing};
ghost use Rattle.machine_databases.specs.inside.Answering.{AreCredentials, Follows, IsText, create_with, the_same};

use crate::ask::ask;
use crate::refusals::push_refusal;
use crate::roots::give_created;
use error_records::refusals::{Call, Refusal};
use joint_databases::calls::{Creation, create};
use machine_core::obj_layout::vault::Vault;
use machine_core::{Machine, Stepped};

/// Asks, and pushes the root of the database that is created with this name and password, or an error record.
pub fn created<V: Vault>(m: &mut Machine, vault: &mut V, name: u32, password: u32) -> Stepped
    requires sound { IsSound m.old }
    requires names { NamesObjects m.old }
    requires room { length m.old.refs.own < frame_words }
    requires alive { V.alive vault.old }
    requires name { IsText m.old.objects name }
    requires password { IsText m.old.objects password }
    ensures follows { Follows (V.outside vault.old) (V.outside vault.new) (AreCredentials m.old.objects (V.outside vault.old) name password) create_with the_same m.old m.new result }
    ensures fails { FailsAsReading (V.outside vault.old) (V.outside vault.new) result m.new }
    ensures leaves { LeavesOutside (V.outside vault.old) (V.outside vault.new) }
    ensures numbers { SameNumbers V.used_words V.directory_at V.most_words V.access vault.old vault.new }
    ensures alive { UnlessBroken result (V.alive vault.new) }
{
    match ask(m, vault) {
        Ok(()) => answer_create(m, vault, name, password),
        Err(fault) => {
            m.fault = fault;
            Stepped::Breaks
        }
    }
}

// Once it asked.
fn answer_create<V: Vault>(m: &mut Machine, vault: &mut V, name: u32, password: u32) -> Stepped
    requires sound { IsSound m.old }
    requires names { NamesObjects m.old }
    requires room { length m.old.refs.own < frame_words }
    requires alive { V.alive vault.old }
    requires name { IsText m.old.objects name }
    requires password { IsText m.old.objects password }
    ensures follows { Follows (V.outside vault.old) (V.outside vault.new) (AreCredentials m.old.objects (V.outside vault.old) name password) create_with knowing m.old m.new result }
    ensures fails { FailsAsReading (V.outside vault.old) (V.outside vault.new) result m.new }
    ensures leaves { LeavesOutside (V.outside vault.old) (V.outside vault.new) }
    ensures numbers { SameNumbers V.used_words V.directory_at V.most_words V.access vault.old vault.new }
    ensures alive { UnlessBroken result (V.alive vault.new) }
{
    match create(
        m.objects.area(),
        vault,
        m.databases.directory,
        name,
        password,
    ) {
        Ok(
            Creation::Made {
                number,
                root,
                directory,
            },
        ) => give_created::<V>(m, number, root, directory),
        Ok(Creation::Fault(fault)) => {
            push_refusal(m, vault, Call::Create, Refusal::Directory(fault))
        }
        Err(fault) => {
            m.fault = fault;
            Stepped::Breaks
        }
    }
}
