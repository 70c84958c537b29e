//! The pages that were read or put last, which needn't be read again.

ghost use Rattle.std.specs.Prelude.{◌≡◌, ℕ, ◌%◌, ◌<◌, List, length, set, Some, None, true, IfOk, IfErr, OnOk, OnErr, Option};
ghost use Rattle.std.specs.Option.{option_map};
ghost use Rattle.obj_layout.specs.ps_outside.Outside.{After, Rose};
ghost use Rattle.obj_layout.specs.ps_outside.Past.{KeepsPast};
ghost use Rattle.volume_parts.specs.Calls.{Looks};
ghost use Rattle.volume_parts.specs.Holding.{Held};
ghost use Rattle.paged_volume.specs.Layout.{capacity_pages};
ghost use Rattle.paged_volume.specs.Staging.{page_of, with_page, Stages, Marks};
ghost use Rattle.paged_volume.specs.Standing.{IsAlive, seen};
ghost use Rattle.paged_volume.specs.Pinning.{KeepsPins};
ghost use Rattle.obj_store.specs.Kept.{AreHeld, AreNone, IsThere, kept_page};
ghost use Rattle.obj_store.specs.Lacking.{IsVolumeFault};
ghost use Rattle.obj_store.specs.Staging.{SamePins};

use paged_volume::layout::PAGE_BYTES;
use paged_volume::{Volume, VolumeFault};
use ps_port::Host;
use std::alloc::{AllocError, Global};

/// How many pages are kept at most.
const PLACES: usize = 8;

/// A page with its bytes.
#[derive(Clone, Copy)]
pub struct KeptPage {
    number: u32,
    bytes: [u8; PAGE_BYTES],
}

/// A few pages of a volume, as they are staged. Each page has one place, that of its number modulo the places.
#[derive(Drop)]
pub struct KeptPages {
    places: Vec<Option<KeptPage>>,
}

// A page with these bytes.
fn new_page(number: u32, from: &[u8]) -> KeptPage
    requires { length from.now ≡ 4096 }
    ensures { result ≡ kept_page number from.now }
{
    let mut bytes = [0u8; PAGE_BYTES];
    bytes.copy_from_slice(from);
    KeptPage { number, bytes }
}

impl KeptPages {
    /// No page is kept. Memory is taken here alone.
    pub fn new(alloc: Global) -> Result<KeptPages, AllocError>
        ensures { IfOk result (λ kept. AreNone kept.places.items) }
    {
        Ok(KeptPages {
            places: Vec::from_elem(alloc, None, PLACES)?,
        })
    }

    /// No page is kept any more.
    pub fn clear(&mut self)
        ensures { AreNone self.new.places.items }
    {
        for place in 0..self.places.len() {
            self.places[place] = None;
        }
    }

    // Copies the page where it is kept, and answers whether it is.
    fn copy(&self, page: u32, into: &mut [u8]) -> bool
        requires { length into.old ≡ 4096 }
        ensures size { length into.new ≡ 4096 }
        ensures found { result ≡ true → IsThere self.now.places.items page into.new }
    {
        let place = page as usize % PLACES;
        if place >= self.places.len() {
            return false;
        }
        match &self.places[place] {
            Some(kept) => copy_if(kept, page, into),
            None => false,
        }
    }

    // Keeps the page, in place of the one that was kept there.
    fn keep(&mut self, page: u32, bytes: &[u8])
        requires { length bytes.now ≡ 4096 }
        ensures { self.new.places.items ≡ set self.old.places.items (page % 8) (Some (kept_page page bytes.now)) }
    {
        let place = page as usize % PLACES;
        if place < self.places.len() {
            match &mut self.places[place] {
                Some(kept) => {
                    kept.number = page;
                    kept.bytes.copy_from_slice(bytes);
                }
                None => self.places[place] = Some(new_page(page, bytes)),
            }
        }
    }
}

// Copies the bytes that are kept where they are those of the page, and answers whether they are.
fn copy_if(kept: &KeptPage, page: u32, into: &mut [u8]) -> bool
    requires { length into.old ≡ 4096 }
    ensures size { length into.new ≡ 4096 }
    ensures found { result ≡ true → kept.now ≡ kept_page page into.new }
{
    if kept.number != page {
        return false;
    }
    into.copy_from_slice(&kept.bytes);
    true
}

/// Reads a page as it is staged, where it isn't kept, and keeps it.
pub fn read_kept<H: Host>(
    volume: &mut Volume<H>,
    kept: &mut KeptPages,
    page: u32,
    into: &mut [u8],
) -> Result<(), VolumeFault>
    requires alive { IsAlive volume.old.live volume.old.table (H.outside volume.old.host) }
    requires kept { AreHeld kept.old.places.items volume.old.table (H.outside volume.old.host) }
    requires page { page < capacity_pages volume.old.table.committed.pages }
    requires size { length into.old ≡ 4096 }
    ensures read { OnOk result ((held : Held) → (seen volume.old.table (H.outside volume.old.host)).contents (Some held) → into.new ≡ page_of page held) }
    ensures size { length into.new ≡ 4096 }
    ensures looks { Looks (H.outside volume.old.host) (H.outside volume.new.host) 1 }
    ensures same { volume.new.table ≡ volume.old.table }
    ensures alive { OnOk result (IsAlive volume.new.live volume.new.table (H.outside volume.new.host)) }
    ensures kept { OnOk result (AreHeld kept.new.places.items volume.new.table (H.outside volume.new.host)) }
    ensures cause { OnErr result (Rose (H.outside volume.old.host).device_faults (H.outside volume.new.host).device_faults) }
    ensures fault { IfErr result (IsVolumeFault (H.outside volume.old.host) (H.outside volume.new.host) volume.new.table 1) }
{
    if kept.copy(page, into) {
        return Ok(());
    }
    match volume.read_page(page, into) {
        Ok(()) => {
            kept.keep(page, into);
            Ok(())
        }
        Err(_) => Err(VolumeFault::Device),
    }
}

/// Stages a page, as the volume does, and keeps it.
pub fn put_kept<H: Host>(
    volume: &mut Volume<H>,
    kept: &mut KeptPages,
    page: u32,
    from: &[u8],
) -> Result<(), VolumeFault>
    requires alive { IsAlive volume.old.live volume.old.table (H.outside volume.old.host) }
    requires kept { AreHeld kept.old.places.items volume.old.table (H.outside volume.old.host) }
    requires page { page < capacity_pages volume.old.table.committed.pages }
    requires size { length from.now ≡ 4096 }
    ensures put { OnOk result ((found : Option Held) → (seen volume.new.table (H.outside volume.new.host)).contents found →
        After (seen volume.old.table (H.outside volume.old.host)).contents (λ before after. option_map (with_page page from.now) before ≡ after) found) }
    ensures stays { OnOk result ((found : Option Held) → (seen volume.old.table (H.outside volume.old.host)).contents found →
        (seen volume.new.table (H.outside volume.new.host)).contents (option_map (with_page page from.now) found)) }
    ensures stages { Stages (seen volume.old.table (H.outside volume.old.host)) (seen volume.new.table (H.outside volume.new.host)) 1 }
    ensures past { KeepsPast (H.outside volume.old.host) (H.outside volume.new.host) }
    ensures committed { volume.new.table.committed ≡ volume.old.table.committed }
    ensures marks { OnOk result (Marks page volume.old.table volume.new.table) }
    ensures pins { SamePins volume.old.table volume.new.table }
    ensures pinned { OnOk result (KeepsPins volume.old.table volume.new.table (H.outside volume.old.host) (H.outside volume.new.host)) }
    ensures alive { OnOk result (IsAlive volume.new.live volume.new.table (H.outside volume.new.host)) }
    ensures kept { OnOk result (AreHeld kept.new.places.items volume.new.table (H.outside volume.new.host)) }
    ensures fault { IfErr result (IsVolumeFault (H.outside volume.old.host) (H.outside volume.new.host) volume.new.table 1) }
{
    match volume.put_page(page, from) {
        Ok(()) => {
            kept.keep(page, from);
            Ok(())
        }
        Err(fault) => Err(fault),
    }
}
