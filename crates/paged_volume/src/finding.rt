//! The tests of a volume's file, and the table of what is committed in it.

ghost use Rattle.std.specs.Prelude.{◌≡◌, ℕ, ◌+◌, ◌^◌, ◌<◌, List, [], length, IfErr, IfOk};
ghost use Rattle.ps_port.specs.ps_outside.Outside.{SettlesFrom};
ghost use Rattle.volume_parts.specs.Calls.{Looks};
ghost use Rattle.paged_volume.specs.Standing.{IsFit, IsTable, Says, map_count};
ghost use Rattle.paged_volume.specs.Naming.{IsNaming};
ghost use Rattle.paged_volume.specs.Attaching.{IsRefusal};

use crate::committed::Committed;
use crate::head::read_head;
use crate::layout::{PAGE_BYTES, capacity_pages, map_pages};
use crate::names::read_names;
use crate::root::read_root;
use crate::table::Table;
use page_map::PageMap;
use ps_port::Host;
use std::alloc::{AllocError, Global};
use volume_parts::OpenFault;

// A table of what is committed, with no page named yet.
fn new_table(alloc: Global, committed: Committed) -> Result<Table, AllocError>
    requires fit { IsFit committed }
    requires commits { committed.note.commits < 2 ^ 64 }
    ensures committed { IfOk result (λ table. table.committed ≡ committed) }
    ensures naming { IfOk result (λ table. IsNaming table 0 0 0) }
    ensures next { IfOk result (λ table. length table.next.items ≡ length table.named.items) }
    ensures pins { IfOk result (λ table. table.pins.items ≡ []) }
{
    let logical = capacity_pages(committed.pages);
    let map = PageMap::new(alloc, logical, committed.pages)?;
    let count = 1 + map_pages(logical) as usize;
    let named = Vec::from_elem(alloc, 0, count)?;
    let next = Vec::from_elem(alloc, 0, count)?;
    Ok(Table {
        committed,
        map,
        named,
        next,
        pins: Vec::new(alloc),
    })
}

// The table of the file, by its tests in their order.
fn look<H: Host>(alloc: Global, host: &mut H) -> Result<Table, OpenFault>
    ensures table { IfOk result IsTable }
    ensures blank { IfOk result (λ table. table.map.staged ≡ table.map.committed) }
    ensures pins { IfOk result (λ table. table.pins.items ≡ []) }
    ensures says { IfOk result (λ table. (bytes : List ℕ) → (H.outside host.old).contents bytes → Says table bytes) }
    ensures looks { IfOk result (λ table. Looks (H.outside host.old) (H.outside host.new) (map_count table.committed + 7)) }
    ensures looked { IfErr result (λ _. Looks (H.outside host.old) (H.outside host.new) 495) }
    ensures cause { IfErr result (IsRefusal (H.outside host.old) (H.outside host.new)) }
{
    let head = match read_head(host) {
        Ok(head) => head,
        Err(fault) => return Err(fault),
    };
    let mut page = [0u8; PAGE_BYTES];
    let committed = match read_root(host, head, &mut page) {
        Ok(committed) => committed,
        Err(fault) => return Err(fault),
    };
    let mut table = match new_table(alloc, committed) {
        Ok(table) => table,
        Err(_) => return Err(OpenFault::Memory),
    };
    match read_names(host, &mut table, &mut page) {
        Ok(()) => {}
        Err(fault) => return Err(fault),
    }
    table.map.settle(&table.named);
    Ok(table)
}

/// Looks after a sync, so that what a crash leaves is what was looked at.
pub fn find<H: Host>(alloc: Global, host: &mut H) -> Result<Table, OpenFault>
    ensures table { IfOk result IsTable }
    ensures blank { IfOk result (λ table. table.map.staged ≡ table.map.committed) }
    ensures pins { IfOk result (λ table. table.pins.items ≡ []) }
    ensures says { IfOk result (λ table. (bytes : List ℕ) → (H.outside host.old).contents bytes → Says table bytes) }
    ensures settles { IfOk result (λ _. SettlesFrom (H.outside host.old) (H.outside host.new)) }
    ensures looks { IfOk result (λ table. Looks (H.outside host.old) (H.outside host.new) (map_count table.committed + 8)) }
    ensures looked { IfErr result (λ _. Looks (H.outside host.old) (H.outside host.new) 496) }
    ensures cause { IfErr result (IsRefusal (H.outside host.old) (H.outside host.new)) }
{
    match host.sync() {
        Ok(()) => {}
        Err(_) => return Err(OpenFault::Device),
    }
    look(alloc, host)
}
