//! Words of a volume, put page by page.

ghost use Rattle.std.specs.Prelude.{◌≡◌, ℕ, ◌+◌, ◌*◌, ◌/◌, ◌^◌, ◌<◌, ◌≤◌, max, min, true, false, List, length, Some, OnOk, IfErr};
ghost use Rattle.obj_layout.specs.ps_outside.Past.{KeepsPast};
ghost use Rattle.volume_parts.specs.Holding.{Held};
ghost use Rattle.volume_parts.specs.Layout.{pages_of_words};
ghost use Rattle.paged_volume.specs.Layout.{capacity_pages, capacity_of};
ghost use Rattle.paged_volume.specs.Standing.{IsAlive, seen};
ghost use Rattle.paged_volume.specs.Staging.{HasPages, Stages};
ghost use Rattle.paged_volume.specs.Pinning.{KeepsPins};
ghost use Rattle.obj_store.specs.Kept.{AreHeld};
ghost use Rattle.obj_store.specs.Words.{HoldsPut};
ghost use Rattle.obj_store.specs.Staging.{Turns, Marks, LeavesStaged, SamePins};
ghost use Rattle.obj_store.specs.Lacking.{IsVolumeFault};

use crate::kept::{KeptPages, put_kept, read_kept};
use crate::words::{PAGE_WORDS, put_words};
use paged_volume::layout::{PAGE_BYTES, logical_pages};
use paged_volume::{Volume, VolumeFault};
use ps_port::Host;

// Whether nothing is to be staged: no word changes, and the page is one of the first `had`.
fn is_there(changes: bool, page: u32, had: u32) -> bool
    ensures there { result ≡ true → (changes ≡ false) × (page < had) }
    ensures other { result ≡ false → page < had → changes ≡ true }
{
    !changes && page < had
}

/// Puts those words that stand in a page, of words that lie from `at` on. Where they stand there already nothing is staged, if the page is one of the
/// first `had`, which are staged or committed.
fn write_part<H: Host>(
    volume: &mut Volume<H>,
    kept: &mut KeptPages,
    had: u32,
    page: u32,
    at: u64,
    from: &[u64],
) -> Result<(), VolumeFault>
    requires alive { IsAlive volume.old.live volume.old.table (H.outside volume.old.host) }
    requires kept { AreHeld kept.old.places.items volume.old.table (H.outside volume.old.host) }
    requires page { page < capacity_pages volume.old.table.committed.pages }
    requires small { at + length from.now < 2 ^ 64 }
    requires meets { (at ≤ 512 * page + 512) × (512 * page ≤ at + length from.now) }
    requires has { HasPages volume.old.table had }
    ensures turns { OnOk result (Turns (seen volume.old.table (H.outside volume.old.host)) (seen volume.new.table (H.outside volume.new.host))
        (HoldsPut (max at (512 * page)) (min (at + length from.now) (512 * page + 512)) at from.now)) }
    ensures unchanged { OnOk result (page < had → LeavesStaged volume.old.table volume.new.table (H.outside volume.old.host) (H.outside volume.new.host)
        (max at (512 * page)) (min (at + length from.now) (512 * page + 512)) at from.now) }
    ensures past { KeepsPast (H.outside volume.old.host) (H.outside volume.new.host) }
    ensures stages { Stages (seen volume.old.table (H.outside volume.old.host)) (seen volume.new.table (H.outside volume.new.host)) 2 }
    ensures committed { volume.new.table.committed ≡ volume.old.table.committed }
    ensures pins { SamePins volume.old.table volume.new.table }
    ensures pinned { OnOk result (KeepsPins volume.old.table volume.new.table (H.outside volume.old.host) (H.outside volume.new.host)) }
    ensures marks { OnOk result (Marks page (page + 1) volume.old.table volume.new.table) }
    ensures alive { OnOk result (IsAlive volume.new.live volume.new.table (H.outside volume.new.host)) }
    ensures kept { OnOk result (AreHeld kept.new.places.items volume.new.table (H.outside volume.new.host)) }
    ensures fault { IfErr result (IsVolumeFault (H.outside volume.old.host) (H.outside volume.new.host) volume.new.table 1) }
{
    let mut bytes = [0u8; PAGE_BYTES];
    read_kept(volume, kept, page, &mut bytes)?;
    let changes = put_words(&mut bytes, PAGE_WORDS * page as u64, at, from);
    if is_there(changes, page, had) {
        return Ok(());
    }
    put_kept(volume, kept, page, &bytes)
}

/// Puts these words in place of those from `at` on. Each of their pages is read once at most, and put once where a word of it changes, or where it
/// isn't one of the first `had`, which are staged or committed.
pub fn write_words<H: Host>(
    volume: &mut Volume<H>,
    kept: &mut KeptPages,
    had: u32,
    at: u64,
    from: &[u64],
) -> Result<(), VolumeFault>
    requires alive { IsAlive volume.old.live volume.old.table (H.outside volume.old.host) }
    requires kept { AreHeld kept.old.places.items volume.old.table (H.outside volume.old.host) }
    requires within { at + length from.now ≤ capacity_of volume.old.table.committed.pages }
    requires has { HasPages volume.old.table had }
    ensures turns { OnOk result (Turns (seen volume.old.table (H.outside volume.old.host)) (seen volume.new.table (H.outside volume.new.host))
        (HoldsPut at (at + length from.now) at from.now)) }
    ensures unchanged { OnOk result (pages_of_words (at + length from.now) ≤ had → LeavesStaged volume.old.table volume.new.table (H.outside volume.old.host) (H.outside volume.new.host)
        at (at + length from.now) at from.now) }
    ensures past { KeepsPast (H.outside volume.old.host) (H.outside volume.new.host) }
    ensures stages { Stages (seen volume.old.table (H.outside volume.old.host)) (seen volume.new.table (H.outside volume.new.host))
        (length from.now / 256 + 4) }
    ensures committed { volume.new.table.committed ≡ volume.old.table.committed }
    ensures pins { SamePins volume.old.table volume.new.table }
    ensures pinned { OnOk result (KeepsPins volume.old.table volume.new.table (H.outside volume.old.host) (H.outside volume.new.host)) }
    ensures marks { OnOk result (Marks (at / 512) (pages_of_words (at + length from.now)) volume.old.table volume.new.table) }
    ensures alive { OnOk result (IsAlive volume.new.live volume.new.table (H.outside volume.new.host)) }
    ensures kept { OnOk result (AreHeld kept.new.places.items volume.new.table (H.outside volume.new.host)) }
    ensures fault { IfErr result (IsVolumeFault (H.outside volume.old.host) (H.outside volume.new.host) volume.new.table 1) }
{
    let first = (at / PAGE_WORDS) as u32;
    let last = logical_pages(at + from.len() as u64) as u32;
    for page in first..last {
        match write_part(volume, kept, had, page, at, from) {
            Ok(()) => (),
            Err(fault) => return Err(fault),
        }
    }
    Ok(())
}
