//! The index page of a volume that has none yet.

ghost use Rattle.std.specs.Prelude.{◌≡◌, List, ℕ, false, IfErr, IfOk};
ghost use Rattle.volume_next.specs.Moving.{IsMigrated, IsUnmoved, lacks_index};

use paged_volume::layout::LEAST_INDEXED;
use paged_volume::volume_parts::OpenFault;
use paged_volume::{Refused, Volume};
use ps_port::Host;
use std::alloc::Global;

/// Attaches the volume of a host. Where it has at least 88 pages and no index page, it is committed once more, with the same words under the same directory, and gets its index page so; else the file is left as it is.
/// The host is given back, with whether it was committed; the file that a read gives then has an index page, where it has 88 pages. From the success of the first sync on each image holds what the file held, also where a call fails. Memory is taken by
/// attaching alone.
pub fn migrate<H: Host>(alloc: Global, host: H) -> Result<(H, bool), Refused<H>>
    ensures ok { IfOk result (λ given. IsMigrated (H.outside host) (H.outside given.0) given.1) }
    ensures when { IfOk result (λ given. (bytes : List ℕ) → (H.outside host).contents bytes → given.1 ≡ lacks_index bytes) }
    ensures moved { IfOk result (λ given. (bytes : List ℕ) → (H.outside given.0).contents bytes → lacks_index bytes ≡ false) }
    ensures err { IfErr result (λ refused. IsUnmoved (H.outside host) (H.outside refused.host) refused.cause) }
{
    let mut volume = Volume::attach(alloc, host)?;
    if volume.pages() < LEAST_INDEXED || volume.depth() != 0 {
        return Ok((volume.release(), false));
    }
    volume.sound();
    let note = volume.note();
    match volume.switch(note.used, note.directory) {
        Ok(()) => Ok((volume.release(), true)),
        Err(_) => Err(Refused {
            cause: OpenFault::Device,
            host: volume.release(),
        }),
    }
}
