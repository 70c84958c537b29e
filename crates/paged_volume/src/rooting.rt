//! The last steps of a switch: the root page, and the selector.

ghost use Rattle.std.specs.Prelude.{◌≡◌, ℕ, ◌+◌, ◌*◌, ◌<◌, ◌≤◌, not, List, OnOk, if◌then◌else◌};
ghost use Rattle.ps_port.specs.ps_outside.Outside.{Leaves};
ghost use Rattle.volume_parts.specs.Calls.{Works, StaysHeld};
ghost use Rattle.paged_volume.specs.Standing.{Says};
ghost use Rattle.paged_volume.specs.Planning.{wanted_pages};
ghost use Rattle.paged_volume.specs.Switching.{IsNext, IsKept, IsRooted, IsSwitched, IsEither, first_name};

use crate::committed::Committed;
use crate::layout::{PAGE_BYTES, root_at};
use crate::paging::fill_root;
use crate::syncing::write_synced;
use crate::table::Table;
use crate::writing::prepare;
use ps_port::{Host, HostFailed};

// What the next root page names: the index page, or else the one map page.
fn first_name(table: &Table, next: Committed) -> u32
    requires { IsNext table.now next }
    ensures { result ≡ first_name table.now next }
{
    if next.depth == 0 {
        table.next[1]
    } else {
        table.next[0]
    }
}

// Writes the pages, and then the root page that isn't selected, each synced.
fn write_root<H: Host>(host: &mut H, table: &Table, next: Committed) -> Result<(), HostFailed>
    requires ready { IsNext table.now next }
    requires says { (image : List ℕ) → (H.outside host.old).images (H.outside host.old).clock image → Says table.now image }
    ensures images { Leaves (H.outside host.old) (H.outside host.new) (IsKept (H.outside host.old) table.now) }
    ensures rooted { OnOk result ((image : List ℕ) → (H.outside host.new).images (H.outside host.new).clock image → IsRooted (H.outside host.old) table.now next image) }
    ensures works { Works (H.outside host.old) (H.outside host.new) result }
    ensures calls { (H.outside host.new).device_calls ≤ (H.outside host.old).device_calls + (wanted_pages table.now.map next + 3) }
    ensures stays { OnOk result (StaysHeld (H.outside host.old) (H.outside host.new)) }
{
    let first = first_name(table, next);
    match prepare(host, table, next) {
        Ok(()) => {}
        Err(failed) => return Err(failed),
    }
    let mut page = [0u8; PAGE_BYTES];
    fill_root(next, first, &mut page);
    let at = root_at(!table.committed.second);
    write_synced(host, at, &page)
}

// The byte that selects a root page.
fn selector_of(second: bool) -> u8
    ensures { result ≡ (if second then 1 else 0) }
{
    if second { 1 } else { 0 }
}

/// Commits what is to be committed next: all of it or nothing.
pub fn switch_to<H: Host>(host: &mut H, table: &Table, next: Committed) -> Result<(), HostFailed>
    requires ready { IsNext table.now next }
    requires says { (image : List ℕ) → (H.outside host.old).images (H.outside host.old).clock image → Says table.now image }
    ensures images { Leaves (H.outside host.old) (H.outside host.new) (IsEither (H.outside host.old) table.now next) }
    ensures switched { OnOk result ((image : List ℕ) → (H.outside host.new).images (H.outside host.new).clock image → IsSwitched (H.outside host.old) table.now next image) }
    ensures works { Works (H.outside host.old) (H.outside host.new) result }
    ensures calls { (H.outside host.new).device_calls ≤ (H.outside host.old).device_calls + (wanted_pages table.now.map next + 5) }
    ensures stays { OnOk result (StaysHeld (H.outside host.old) (H.outside host.new)) }
{
    match write_root(host, table, next) {
        Ok(()) => {}
        Err(failed) => return Err(failed),
    }
    write_synced(
        host,
        PAGE_BYTES as u64,
        &[selector_of(!table.committed.second)],
    )
}
