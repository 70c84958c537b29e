//! The directory is known before the first call on databases is answered.
ghost use Rattle.std.specs.Prelude.{IfErr, OnOk};
ghost use Rattle.machine_core.specs.obj_layout.Storing.{SameNumbers};
ghost use Rattle.machine_core.specs.swizzle.Reading.{FailsReading, LeavesOutside};
ghost use Rattle.machine_core.specs.Naming.{NamesObjects};
ghost use Rattle.machine_databases.specs.Asking.{Asks};

use joint_databases::calls::know;
use machine_core::Machine;
use machine_core::obj_layout::vault::Vault;
use machine_core::swizzle::fault::SwizzleFault;

/// Knows the directory of the vault. It is fetched at the first call on databases; nothing is done at a later one. Damaged where it hasn't the shape of a directory.
pub fn ask<V: Vault>(m: &mut Machine, vault: &mut V) -> Result<(), SwizzleFault>
    requires names { NamesObjects m.old }
    requires alive { V.alive vault.old }
    ensures asks { Asks (V.outside vault.old) (V.outside vault.new) m.old m.new result }
    ensures fails { IfErr result (FailsReading (V.outside vault.old) (V.outside vault.new)) }
    ensures leaves { LeavesOutside (V.outside vault.old) (V.outside vault.new) }
    ensures numbers { SameNumbers V.used_words V.directory_at V.most_words V.access vault.old vault.new }
    ensures alive { OnOk result (V.alive vault.new) }
{
    if m.databases.asked {
        return Ok(());
    }
    let directory = match know(m.objects.area(), vault) {
        Ok(directory) => directory,
        Err(fault) => return Err(fault),
    };
    m.databases.asked = true;
    m.databases.directory = directory;
    Ok(())
}
