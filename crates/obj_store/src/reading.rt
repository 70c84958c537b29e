//! Words of a volume, read page by page.

ghost use Rattle.std.specs.Prelude.{◌≡◌, ◌⊎◌, ℕ, ◌+◌, ◌-◌, ◌*◌, ◌/◌, ◌^◌, ◌<◌, ◌≤◌, List, length, slice_index, Some, false, OnOk, OnErr};
ghost use Rattle.obj_layout.specs.ps_outside.Outside.{Rose};
ghost use Rattle.paged_volume.specs.Layout.{capacity_pages, capacity_of};
ghost use Rattle.volume_parts.specs.Holding.{Held};
ghost use Rattle.paged_volume.specs.Standing.{IsAlive};
ghost use Rattle.volume_parts.specs.Calls.{Looks};
ghost use Rattle.paged_volume.specs.Staging.{page_of};
ghost use Rattle.obj_store.specs.Spaces.{word_at, shown};
ghost use Rattle.obj_store.specs.Kept.{AreHeld};
ghost use Rattle.obj_store.specs.Viewing.{IsSource};
ghost use Rattle.obj_store.specs.Words.{HoldsRead};

use crate::kept::{KeptPages, read_kept};
use crate::source::Source;
use crate::words::{PAGE_WORDS, take_words};
use paged_volume::layout::{PAGE_BYTES, logical_pages};
use paged_volume::{Volume, VolumeFault};
use ps_port::Host;

// Reads a page as the source shows it. It takes one call of the device at most.
fn read_shown<H: Host>(
    volume: &mut Volume<H>,
    kept: &mut KeptPages,
    source: Source,
    page: u32,
    into: &mut [u8],
) -> Result<(), VolumeFault>
    requires alive { IsAlive volume.old.live volume.old.table (H.outside volume.old.host) }
    requires kept { AreHeld kept.old.places.items volume.old.table (H.outside volume.old.host) }
    requires source { IsSource volume.old.table source }
    requires page { page < capacity_pages volume.old.table.committed.pages }
    requires size { length into.old ≡ 4096 }
    ensures read { OnOk result ((held : Held) → (shown source volume.old.table (H.outside volume.old.host)).contents (Some held) → into.new ≡ page_of page held) }
    ensures size { length into.new ≡ 4096 }
    ensures looks { Looks (H.outside volume.old.host) (H.outside volume.new.host) 1 }
    ensures same { volume.new.table ≡ volume.old.table }
    ensures alive { OnOk result (IsAlive volume.new.live volume.new.table (H.outside volume.new.host)) }
    ensures kept { OnOk result (AreHeld kept.new.places.items volume.new.table (H.outside volume.new.host)) }
    ensures cause { OnErr result (Rose (H.outside volume.old.host).device_faults (H.outside volume.new.host).device_faults) }
{
    match source {
        Source::Staged => read_kept(volume, kept, page, into),
        Source::Pinned { pin, .. } => volume.read_pinned(pin, page, into),
    }
}

/// Reads those words that stand in a page, of words that lie from `at` on.
fn read_part<H: Host>(
    volume: &mut Volume<H>,
    kept: &mut KeptPages,
    source: Source,
    page: u32,
    at: u64,
    into: &mut [u64],
) -> Result<(), VolumeFault>
    requires alive { IsAlive volume.old.live volume.old.table (H.outside volume.old.host) }
    requires kept { AreHeld kept.old.places.items volume.old.table (H.outside volume.old.host) }
    requires source { IsSource volume.old.table source }
    requires page { page < capacity_pages volume.old.table.committed.pages }
    requires small { at + length into.old < 2 ^ 64 }
    requires meets { (at ≤ 512 * page + 512) × (512 * page ≤ at + length into.old) }
    ensures read { OnOk result ((held : Held) → (shown source volume.old.table (H.outside volume.old.host)).contents (Some held) →
        HoldsRead held (512 * page) (512 * page + 512) at into.old into.new) }
    ensures size { length into.new ≡ length into.old }
    ensures looks { Looks (H.outside volume.old.host) (H.outside volume.new.host) 1 }
    ensures same { volume.new.table ≡ volume.old.table }
    ensures alive { OnOk result (IsAlive volume.new.live volume.new.table (H.outside volume.new.host)) }
    ensures kept { OnOk result (AreHeld kept.new.places.items volume.new.table (H.outside volume.new.host)) }
    ensures cause { OnErr result (Rose (H.outside volume.old.host).device_faults (H.outside volume.new.host).device_faults) }
{
    let mut bytes = [0u8; PAGE_BYTES];
    read_shown(volume, kept, source, page, &mut bytes)?;
    take_words(&bytes, PAGE_WORDS * page as u64, at, into);
    Ok(())
}

/// Reads the words from `at` on, as many as `into` holds. Each of their pages is read once at most, and not where it is kept.
pub fn read_words<H: Host>(
    volume: &mut Volume<H>,
    kept: &mut KeptPages,
    source: Source,
    at: u64,
    into: &mut [u64],
) -> Result<(), VolumeFault>
    requires alive { IsAlive volume.old.live volume.old.table (H.outside volume.old.host) }
    requires kept { AreHeld kept.old.places.items volume.old.table (H.outside volume.old.host) }
    requires source { IsSource volume.old.table source }
    requires within { at + length into.old ≤ capacity_of volume.old.table.committed.pages }
    ensures read { OnOk result ((held : Held) → (shown source volume.old.table (H.outside volume.old.host)).contents (Some held) →
        (k : ℕ) → k < length into.old → slice_index into.new k ≡ word_at held.bytes (at + k)) }
    ensures size { length into.new ≡ length into.old }
    ensures looks { Looks (H.outside volume.old.host) (H.outside volume.new.host) (length into.old / 512 + 2) }
    ensures same { volume.new.table ≡ volume.old.table }
    ensures alive { OnOk result (IsAlive volume.new.live volume.new.table (H.outside volume.new.host)) }
    ensures kept { OnOk result (AreHeld kept.new.places.items volume.new.table (H.outside volume.new.host)) }
    ensures cause { OnErr result (Rose (H.outside volume.old.host).device_faults (H.outside volume.new.host).device_faults) }
{
    let first = (at / PAGE_WORDS) as u32;
    let last = logical_pages(at + into.len() as u64) as u32;
    for page in first..last {
        read_part(volume, kept, source, page, at, into)?;
    }
    Ok(())
}
