//! The pages that a switch writes, before the root page: the map pages whose numbers changed, and the index page.

ghost use Rattle.std.specs.Prelude.{◌≡◌, ℕ, ◌+◌, ◌*◌, ◌<◌, ◌≤◌, List, length, OnOk, if◌then◌else◌};
ghost use Rattle.ps_port.specs.ps_outside.Outside.{After, Leaves};
ghost use Rattle.ps_port.specs.Disk.{Torn, Written, written};
ghost use Rattle.ps_port.specs.ps_outside.Outside.{IsDeviceCall};
ghost use Rattle.volume_parts.specs.Calls.{Works, StaysHeld};
ghost use Rattle.paged_volume.specs.Standing.{Says, logical_of, map_count};
ghost use Rattle.paged_volume.specs.Changing.{is_changed, changed_pages};
ghost use Rattle.paged_volume.specs.Planning.{wanted_pages};
ghost use Rattle.paged_volume.specs.Switching.{IsNext, IsKept, SamePages, HasMaps, HasIndex, IsReady};

use crate::committed::Committed;
use crate::layout::{PAGE_BYTES, page_at};
use crate::names::map_count;
use crate::paging::fill_index;
use crate::syncing::sync;
use crate::table::Table;
use ps_port::{Host, HostFailed};

// Writes a page.
pub fn write_page<H: Host>(host: &mut H, number: u32, from: &[u8]) -> Result<(), HostFailed>
    requires size { length from.now ≡ 4096 }
    requires long { (bytes : List ℕ) → (H.outside host.old).contents bytes → 4096 * number ≤ length bytes }
    ensures wrote { OnOk result ((bytes : List ℕ) → (H.outside host.new).contents bytes → After (H.outside host.old).contents (Written (4096 * number) from.now) bytes) }
    ensures written { OnOk result ((bytes : List ℕ) → (H.outside host.old).contents bytes → (H.outside host.new).contents (written (4096 * number) from.now bytes)) }
    ensures images { Leaves (H.outside host.old) (H.outside host.new) (After ((H.outside host.old).images (H.outside host.old).clock) (Torn (4096 * number) 4096)) }
    ensures call { IsDeviceCall (H.outside host.old) (H.outside host.new) result }
{
    host.write_at(page_at(number), from)
}

// Writes a map page, if its numbers changed.
fn write_map<H: Host>(
    host: &mut H,
    table: &Table,
    next: Committed,
    map_page: u32,
) -> Result<(), HostFailed>
    requires ready { IsNext table.now next }
    requires within { map_page < map_count next }
    requires says { (image : List ℕ) → (H.outside host.old).images (H.outside host.old).clock image → Says table.now image }
    requires maps { (bytes : List ℕ) → (H.outside host.old).contents bytes → HasMaps table.now next map_page bytes }
    ensures images { Leaves (H.outside host.old) (H.outside host.new) (IsKept (H.outside host.old) table.now) }
    ensures maps { OnOk result ((bytes : List ℕ) → (H.outside host.new).contents bytes → HasMaps table.now next (map_page + 1) bytes) }
    ensures staged { OnOk result ((bytes : List ℕ) → (H.outside host.new).contents bytes → After (H.outside host.old).contents (SamePages table.now) bytes) }
    ensures works { Works (H.outside host.old) (H.outside host.new) result }
    ensures calls { (H.outside host.new).device_calls ≤ (H.outside host.old).device_calls + (if is_changed table.now.map (logical_of next) map_page then 1 else 0) }
    ensures stays { OnOk result (StaysHeld (H.outside host.old) (H.outside host.new)) }
{
    let number = table.next[1 + map_page as usize];
    if number == table.named[1 + map_page as usize] {
        return Ok(());
    }
    let mut page = [0u8; PAGE_BYTES];
    table.map.write_map_page(map_page, &mut page);
    write_page(host, number, &page)
}

// Writes the map pages whose numbers changed.
fn write_maps<H: Host>(host: &mut H, table: &Table, next: Committed) -> Result<(), HostFailed>
    requires ready { IsNext table.now next }
    requires says { (image : List ℕ) → (H.outside host.old).images (H.outside host.old).clock image → Says table.now image }
    ensures images { Leaves (H.outside host.old) (H.outside host.new) (IsKept (H.outside host.old) table.now) }
    ensures maps { OnOk result ((bytes : List ℕ) → (H.outside host.new).contents bytes → HasMaps table.now next (map_count next) bytes) }
    ensures staged { OnOk result ((bytes : List ℕ) → (H.outside host.new).contents bytes → After (H.outside host.old).contents (SamePages table.now) bytes) }
    ensures works { Works (H.outside host.old) (H.outside host.new) result }
    ensures calls { (H.outside host.new).device_calls ≤ (H.outside host.old).device_calls + changed_pages table.now.map (logical_of next) (map_count next) }
    ensures stays { OnOk result (StaysHeld (H.outside host.old) (H.outside host.new)) }
{
    for map_page in 0..map_count(next) {
        match write_map(host, table, next, map_page) {
            Ok(()) => {}
            Err(failed) => return Err(failed),
        }
    }
    Ok(())
}

// Writes the index page, if there is one.
fn write_index<H: Host>(host: &mut H, table: &Table, next: Committed) -> Result<(), HostFailed>
    requires ready { IsNext table.now next }
    requires says { (image : List ℕ) → (H.outside host.old).images (H.outside host.old).clock image → Says table.now image }
    requires maps { (bytes : List ℕ) → (H.outside host.old).contents bytes → HasMaps table.now next (map_count next) bytes }
    ensures images { Leaves (H.outside host.old) (H.outside host.new) (IsKept (H.outside host.old) table.now) }
    ensures named { OnOk result ((bytes : List ℕ) → (H.outside host.new).contents bytes → HasMaps table.now next (map_count next) bytes × HasIndex table.now next bytes) }
    ensures staged { OnOk result ((bytes : List ℕ) → (H.outside host.new).contents bytes → After (H.outside host.old).contents (SamePages table.now) bytes) }
    ensures works { Works (H.outside host.old) (H.outside host.new) result }
    ensures calls { (H.outside host.new).device_calls ≤ (H.outside host.old).device_calls + next.depth }
    ensures stays { OnOk result (StaysHeld (H.outside host.old) (H.outside host.new)) }
{
    if next.depth == 0 {
        return Ok(());
    }
    let mut page = [0u8; PAGE_BYTES];
    fill_index(&table.next, map_count(next), &mut page);
    let number = table.next[0];
    write_page(host, number, &page)
}

// Writes the pages that name those that are committed next.
fn write_names<H: Host>(host: &mut H, table: &Table, next: Committed) -> Result<(), HostFailed>
    requires ready { IsNext table.now next }
    requires says { (image : List ℕ) → (H.outside host.old).images (H.outside host.old).clock image → Says table.now image }
    ensures images { Leaves (H.outside host.old) (H.outside host.new) (IsKept (H.outside host.old) table.now) }
    ensures ready { OnOk result ((bytes : List ℕ) → (H.outside host.new).contents bytes → IsReady (H.outside host.old) table.now next bytes) }
    ensures works { Works (H.outside host.old) (H.outside host.new) result }
    ensures calls { (H.outside host.new).device_calls ≤ (H.outside host.old).device_calls + wanted_pages table.now.map next }
    ensures stays { OnOk result (StaysHeld (H.outside host.old) (H.outside host.new)) }
{
    match write_maps(host, table, next) {
        Ok(()) => {}
        Err(failed) => return Err(failed),
    }
    write_index(host, table, next)
}

/// Writes them, and syncs.
pub fn prepare<H: Host>(host: &mut H, table: &Table, next: Committed) -> Result<(), HostFailed>
    requires ready { IsNext table.now next }
    requires says { (image : List ℕ) → (H.outside host.old).images (H.outside host.old).clock image → Says table.now image }
    ensures images { Leaves (H.outside host.old) (H.outside host.new) (IsKept (H.outside host.old) table.now) }
    ensures ready { OnOk result ((image : List ℕ) → (H.outside host.new).images (H.outside host.new).clock image → IsReady (H.outside host.old) table.now next image) }
    ensures works { Works (H.outside host.old) (H.outside host.new) result }
    ensures calls { (H.outside host.new).device_calls ≤ (H.outside host.old).device_calls + (wanted_pages table.now.map next + 1) }
    ensures stays { OnOk result (StaysHeld (H.outside host.old) (H.outside host.new)) }
{
    match write_names(host, table, next) {
        Ok(()) => {}
        Err(failed) => return Err(failed),
    }
    sync(host)
}
