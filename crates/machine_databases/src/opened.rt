//! What opening a database does with the texts that were popped: it asks, and is answered.
ghost use Rattle.std.specs.Prelude.{◌<◌, length};
ghost use Rattle.machine_core.specs.obj_layout.Storing.{SameNumbers};
ghost use Rattle.machine_core.specs.swizzle.Reading.{LeavesOutside};
ghost use Rattle.machine_core.specs.ps_stepping.Config.{frame_words};
ghost use Rattle.machine_core.specs.Failing.{FailsAsReading};
ghost use Rattle.machine_core.specs.Holding.{IsSound};
ghost use Rattle.machine_core.specs.Naming.{NamesObjects};
ghost use Rattle.machine_core.specs.Stepped.{UnlessBroken};
ghost use Rattle.machine_databases.specs.Asking.{knowing};
ghost use Rattle.machine_databases.specs.inside.Answering.{AreEntry, Follows, IsText, open_with, the_same};

use crate::ask::ask;
use crate::refusals::push_refusal;
use crate::roots::give_opened;
use error_records::refusals::{Call, Refusal};
use joint_databases::calls::open;
use joint_held::db_dir::admit::Admitted;
use machine_core::obj_layout::vault::Vault;
use machine_core::{Machine, Stepped};

/// Asks, and pushes the root of the database that is opened with this name, password and mode, or an error record.
pub fn opened<V: Vault>(
    m: &mut Machine,
    vault: &mut V,
    name: u32,
    password: u32,
    mode: u32,
) -> Stepped
    requires sound { IsSound m.old }
    requires names { NamesObjects m.old }
    requires room { length m.old.refs.own < frame_words }
    requires alive { V.alive vault.old }
    requires name { IsText m.old.objects name }
    requires password { IsText m.old.objects password }
    requires mode { IsText m.old.objects mode }
    ensures follows { Follows (V.outside vault.old) (V.outside vault.new) (AreEntry m.old.objects (V.outside vault.old) name password mode) open_with the_same m.old m.new result }
    ensures fails { FailsAsReading (V.outside vault.old) (V.outside vault.new) result m.new }
    ensures leaves { LeavesOutside (V.outside vault.old) (V.outside vault.new) }
    ensures numbers { SameNumbers V.used_words V.directory_at V.most_words V.access vault.old vault.new }
    ensures alive { UnlessBroken result (V.alive vault.new) }
{
    match ask(m, vault) {
        Ok(()) => answer_open(m, vault, name, password, mode),
        Err(fault) => {
            m.fault = fault;
            Stepped::Breaks
        }
    }
}

// Once it asked.
fn answer_open<V: Vault>(
    m: &mut Machine,
    vault: &mut V,
    name: u32,
    password: u32,
    mode: u32,
) -> Stepped
    requires sound { IsSound m.old }
    requires names { NamesObjects m.old }
    requires room { length m.old.refs.own < frame_words }
    requires alive { V.alive vault.old }
    requires name { IsText m.old.objects name }
    requires password { IsText m.old.objects password }
    requires mode { IsText m.old.objects mode }
    ensures follows { Follows (V.outside vault.old) (V.outside vault.new) (AreEntry m.old.objects (V.outside vault.old) name password mode) open_with knowing m.old m.new result }
    ensures fails { FailsAsReading (V.outside vault.old) (V.outside vault.new) result m.new }
    ensures leaves { LeavesOutside (V.outside vault.old) (V.outside vault.new) }
    ensures numbers { SameNumbers V.used_words V.directory_at V.most_words V.access vault.old vault.new }
    ensures alive { UnlessBroken result (V.alive vault.new) }
{
    match open(
        m.objects.area(),
        vault,
        m.databases.directory,
        name,
        password,
        mode,
    ) {
        Ok(
            Admitted::Root {
                number,
                root,
                writing,
            },
        ) => give_opened::<V>(m, number, root, writing),
        Ok(Admitted::Fault(fault)) => push_refusal(m, vault, Call::Open, Refusal::Directory(fault)),
        Err(fault) => {
            m.fault = fault;
            Stepped::Breaks
        }
    }
}
