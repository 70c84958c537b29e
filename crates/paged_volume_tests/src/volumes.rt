//! Volumes that are changed: their pages, each filled with one byte, and what stands in them.

ghost use Rattle.std.specs.Prelude.{◌≡◌, ◌+◌, length, IsSome, OnOk, IfOk};
ghost use Rattle.memory_host.specs.Memory.{outside_of};
ghost use Rattle.paged_volume.specs.Standing.{IsAlive};
ghost use Rattle.paged_volume.specs.Staging.{HasPages};
ghost use Rattle.paged_volume.specs.Pinning.{pin_of};
ghost use Rattle.paged_volume.specs.volume_parts.Layout.{pages_of_words};

use memory_host::MemoryHost;
use paged_volume::layout::{capacity, capacity_pages, logical_pages};
use paged_volume::volume_parts::{Note, OpenFault};
use paged_volume::{Volume, VolumeFault};
use std::alloc::{AllocError, Global};

/// The room of a host: bytes and records of its calls.
pub const ROOM: u64 = 1 << 22;

/// What stands in a volume: its note, its depth, and the first byte of each of its first three pages.
#[derive(Clone, Copy, Debug, PartialEq, Eq)]
pub struct Content {
    pub note: Note,
    pub depth: u32,
    pub bytes: [u8; 3],
}

/// A host with these bytes, which fails from this call on.
pub fn host_of(alloc: Global, bytes: &[u8], calls: u64) -> Result<MemoryHost, AllocError> {
    MemoryHost::new(alloc, bytes, &[], calls, ROOM)
}

/// Puts a page that is filled with one byte.
pub fn put(volume: &mut Volume<MemoryHost>, page: u32, byte: u8) -> Result<(), VolumeFault>
    requires { IsAlive volume.old.live volume.old.table (outside_of volume.old.host) }
    ensures alive { OnOk result (IsAlive volume.new.live volume.new.table (outside_of volume.new.host)) }
    ensures pins { volume.new.table.pins.items ≡ volume.old.table.pins.items }
{
    if page >= capacity_pages(volume.pages()) {
        return Err(VolumeFault::Device);
    }
    volume.put_page(page, &[byte; 4096])
}

/// The same, and why it wasn't put, where there was no page for it. The volume is alive then.
pub fn put_if_free(
    volume: &mut Volume<MemoryHost>,
    page: u32,
    byte: u8,
) -> Result<Option<VolumeFault>, VolumeFault>
    requires { IsAlive volume.old.live volume.old.table (outside_of volume.old.host) }
    ensures alive { OnOk result (IsAlive volume.new.live volume.new.table (outside_of volume.new.host)) }
    ensures pins { volume.new.table.pins.items ≡ volume.old.table.pins.items }
{
    if page >= capacity_pages(volume.pages()) {
        return Err(VolumeFault::Device);
    }
    match volume.put_page(page, &[byte; 4096]) {
        Ok(()) => Ok(None),
        Err(
            VolumeFault::Full {
                held,
                wanted,
                pages,
            },
        ) => Ok(Some(VolumeFault::Full {
            held,
            wanted,
            pages,
        })),
        Err(VolumeFault::Device) => Err(VolumeFault::Device),
    }
}

/// Puts the first pages, so many, each filled with this byte.
pub fn fill(volume: &mut Volume<MemoryHost>, count: u32, byte: u8) -> Result<(), VolumeFault>
    requires { IsAlive volume.old.live volume.old.table (outside_of volume.old.host) }
    ensures alive { OnOk result (IsAlive volume.new.live volume.new.table (outside_of volume.new.host)) }
    ensures has { OnOk result (HasPages volume.new.table count) }
    ensures pins { volume.new.table.pins.items ≡ volume.old.table.pins.items }
{
    if count > capacity_pages(volume.pages()) {
        return Err(VolumeFault::Device);
    }
    for page in 0..count {
        volume.put_page(page, &[byte; 4096])?;
    }
    Ok(())
}

/// Commits so many pages, each filled with this byte.
pub fn commit(volume: &mut Volume<MemoryHost>, count: u32, byte: u8) -> Result<(), VolumeFault>
    requires { IsAlive volume.old.live volume.old.table (outside_of volume.old.host) }
    ensures alive { OnOk result (IsAlive volume.new.live volume.new.table (outside_of volume.new.host)) }
    ensures pins { OnOk result (length volume.new.table.pins.items ≡ length volume.old.table.pins.items) }
    ensures held { OnOk result (IsSome (pin_of volume.old.table 0) → IsSome (pin_of volume.new.table 0)) }
{
    fill(volume, count, byte)?;
    let used = 512 * count as u64;
    if used == 0 || capacity(volume.pages()) < used {
        return Err(VolumeFault::Device);
    }
    volume.switch(used, 0)
}

/// Puts the page after those that are committed, and answers which one that is.
pub fn put_behind(volume: &mut Volume<MemoryHost>, byte: u8) -> Result<u32, VolumeFault>
    requires { IsAlive volume.old.live volume.old.table (outside_of volume.old.host) }
    ensures alive { OnOk result (IsAlive volume.new.live volume.new.table (outside_of volume.new.host)) }
    ensures has { IfOk result (λ page. HasPages volume.new.table (page + 1)) }
    ensures pins { volume.new.table.pins.items ≡ volume.old.table.pins.items }
{
    let page = logical_pages(volume.note().used) as u32;
    if page >= capacity_pages(volume.pages()) {
        return Err(VolumeFault::Device);
    }
    volume.put_page(page, &[byte; 4096])?;
    volume.sound();
    Ok(page)
}

/// Commits so many words of pages that are staged or committed, and answers why not where there are too few pages. The volume is alive then.
pub fn switch_if_room(
    volume: &mut Volume<MemoryHost>,
    used: u64,
) -> Result<Option<VolumeFault>, VolumeFault>
    requires alive { IsAlive volume.old.live volume.old.table (outside_of volume.old.host) }
    requires has { HasPages volume.old.table (pages_of_words used) }
    ensures alive { OnOk result (IsAlive volume.new.live volume.new.table (outside_of volume.new.host)) }
    ensures pins { OnOk result (length volume.new.table.pins.items ≡ length volume.old.table.pins.items) }
{
    if used == 0 || capacity(volume.pages()) < used {
        return Err(VolumeFault::Device);
    }
    match volume.switch(used, 0) {
        Ok(()) => Ok(None),
        Err(
            VolumeFault::Full {
                held,
                wanted,
                pages,
            },
        ) => Ok(Some(VolumeFault::Full {
            held,
            wanted,
            pages,
        })),
        Err(VolumeFault::Device) => Err(VolumeFault::Device),
    }
}

/// The first byte of a page as it is staged.
pub fn first_byte(volume: &mut Volume<MemoryHost>, page: u32) -> Result<u8, VolumeFault>
    requires { IsAlive volume.old.live volume.old.table (outside_of volume.old.host) }
    ensures alive { OnOk result (IsAlive volume.new.live volume.new.table (outside_of volume.new.host)) }
    ensures same { volume.new.table ≡ volume.old.table }
{
    if page >= capacity_pages(volume.pages()) {
        return Err(VolumeFault::Device);
    }
    let mut bytes = [255u8; 4096];
    volume.read_page(page, &mut bytes)?;
    Ok(bytes[0])
}

/// What stands in a volume as it is staged.
pub fn read(volume: &mut Volume<MemoryHost>) -> Result<Content, VolumeFault>
    requires { IsAlive volume.old.live volume.old.table (outside_of volume.old.host) }
    ensures { OnOk result (IsAlive volume.new.live volume.new.table (outside_of volume.new.host)) }
{
    let bytes = [
        first_byte(volume, 0)?,
        first_byte(volume, 1)?,
        first_byte(volume, 2)?,
    ];
    Ok(Content {
        note: volume.note(),
        depth: volume.depth(),
        bytes,
    })
}

/// What stands in a file.
pub fn content_of(alloc: Global, bytes: &[u8]) -> Result<Content, OpenFault> {
    let Ok(host) = host_of(alloc, bytes, u64::MAX) else {
        return Err(OpenFault::Memory);
    };
    match Volume::attach(alloc, host) {
        Ok(volume) => {
            let mut volume = volume;
            read(&mut volume).map_err(|_| OpenFault::Device)
        }
        Err(refused) => Err(refused.cause),
    }
}

/// What stands in the file that a crash leaves at this moment, with this byte where anything may stand.
pub fn content_at(
    alloc: Global,
    host: &MemoryHost,
    moment: u64,
    filler: u8,
) -> Result<Content, OpenFault> {
    match host.crash(alloc, moment, filler) {
        Ok(image) => content_of(alloc, &image),
        Err(_) => Err(OpenFault::Memory),
    }
}
