//! Where a view of a pin reads.

ghost use Rattle.std.specs.Prelude.{IsSome};
ghost use Rattle.paged_volume.specs.Pinning.{pin_of};
ghost use Rattle.paged_volume.specs.Standing.{IsAlive};
ghost use Rattle.obj_store.specs.Viewing.{IsViewed, IsFew};

use crate::source::Source;
use paged_volume::Volume;
use ps_port::Host;

/// Where a view of a pin reads: as the store does where the pin is current, and else by the pin.
pub fn source_in<H: Host>(volume: &Volume<H>, pin: u32) -> Source
    requires alive { IsAlive volume.now.live volume.now.table (H.outside volume.now.host) }
    requires pin { IsSome (pin_of volume.now.table pin) }
    ensures viewed { IsViewed volume.now.table pin result }
    ensures few { IsFew result }
{
    if volume.is_current(pin) {
        return Source::Staged;
    }
    Source::Pinned {
        pin,
        note: volume.pinned_note(pin),
    }
}
