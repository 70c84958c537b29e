//! All that was stored is committed.

ghost use Rattle.std.specs.Prelude.{◌≡◌, ◌<◌, map, OnOk, OnErr, IfErr};
ghost use Rattle.volume_parts.specs.Layout.{pages_of_words};
ghost use Rattle.paged_volume.specs.Pinning.{outdated, KeepsPins};
ghost use Rattle.paged_volume.specs.Planning.{switched};
ghost use Rattle.paged_volume.specs.Committing.{HasRoom};
ghost use Rattle.paged_volume.specs.Standing.{IsAlive};
ghost use Rattle.paged_volume.specs.Staging.{HasPages};
ghost use Rattle.obj_layout.specs.Stored.{directed};
ghost use Rattle.obj_layout.specs.Storing.{Becomes, Settles, settling};
ghost use Rattle.obj_store.specs.Spaces.{IsInOrder, spaces};
ghost use Rattle.obj_store.specs.Tested.{IsSettleFault};

use crate::lacking::vault_fault;
use obj_layout::vault::VaultFault;
use paged_volume::Volume;
use ps_port::Host;

/// Keeps what is staged, with this directory: all of it or nothing. Too few pages there are exactly where the volume says so.
pub fn settle_all<H: Host>(
    volume: &mut Volume<H>,
    used: u64,
    directory: u64,
) -> Result<(), VaultFault>
    requires alive { IsAlive volume.old.live volume.old.table (H.outside volume.old.host) }
    requires order { IsInOrder used volume.old.table.committed }
    requires has { HasPages volume.old.table (pages_of_words used) }
    requires below { directory < used }
    ensures becomes { OnOk result (Becomes (spaces used volume.old.table (H.outside volume.old.host))
        (spaces used volume.new.table (H.outside volume.new.host)) (directed directory)) }
    ensures settles { Settles (spaces used volume.old.table (H.outside volume.old.host))
        (spaces used volume.new.table (H.outside volume.new.host)) (settling used) (directed directory) result }
    ensures fault { IfErr result (IsSettleFault volume.old.table (switched used directory volume.old.table.committed)) }
    ensures room { OnOk result (HasRoom volume.old.table (switched used directory volume.old.table.committed)) }
    ensures order { IsInOrder used volume.new.table.committed }
    ensures pages { volume.new.table.committed.pages ≡ volume.old.table.committed.pages }
    ensures note { OnOk result ((volume.new.table.committed.note.used ≡ used) × (volume.new.table.committed.note.directory ≡ directory)) }
    ensures blank { OnOk result (volume.new.table.map.staged ≡ volume.new.table.map.committed) }
    ensures outdated { OnOk result (volume.new.table.pins.items ≡ map outdated volume.old.table.pins.items) }
    ensures pinned { OnOk result (KeepsPins volume.old.table volume.new.table (H.outside volume.old.host) (H.outside volume.new.host)) }
    ensures pins { OnErr result (volume.new.table.pins.items ≡ volume.old.table.pins.items) }
    ensures lists { volume.new.table.map.pins ≡ volume.old.table.map.pins }
    ensures has { OnOk result (HasPages volume.new.table (pages_of_words used)) }
    ensures alive { OnOk result (IsAlive volume.new.live volume.new.table (H.outside volume.new.host)) }
{
    match volume.switch(used, directory) {
        Ok(()) => Ok(()),
        Err(fault) => Err(vault_fault(fault)),
    }
}
