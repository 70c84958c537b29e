//! The numbers of a root page, and their tests.

ghost use Rattle.std.specs.Prelude.{◌≡◌, ℕ, ◌+◌, ◌*◌, ◌<◌, ◌≤◌, ◌%◌, ◌==◌, ◌^◌, List, length, take, drop, slice_index, None, Some, OnOk, IfErr, IfOk};
ghost use Rattle.ps_port.specs.ps_outside.Outside.{Rose};
ghost use Rattle.volume_parts.specs.Layout.{root_at, selects};
ghost use Rattle.volume_parts.specs.Calls.{Looks};
ghost use Rattle.paged_volume.specs.Found.{root_tests};
ghost use Rattle.paged_volume.specs.Standing.{IsHeadFit, HasHead, IsFit, HasRoot};
ghost use Rattle.paged_volume.specs.Attaching.{IsRoot, IsRefusal};

use crate::committed::Committed;
use crate::damage::{Damage, wants_between, wants_depth, wants_equal};
use crate::head::{Head, read_byte};
use crate::layout::{PAGE_BYTES, capacity, logical_pages, root_at};
use byteorder::{ByteOrder, LittleEndian};
use ps_port::{Host, HostFailed};
use volume_parts::{Note, OpenFault};

/// The numbers of a root page: what it says of a commit, how many logical pages there are, and the depth.
#[derive(Clone, Copy)]
pub struct Root {
    pub note: Note,
    pub logical: u32,
    pub depth: u32,
}

// The first test of a root page that fails.
#[tactic(auto, unfolding(crate::specs::Found::root_tests))]
fn test_root(head: Head, at: u64, root: Root) -> Option<Damage>
    requires fit { IsHeadFit head.format head.pages }
    requires pages { head.pages ≤ 1048576 }
    requires at { at ≤ 16384 }
    ensures { result ≡ root_tests head.format head.pages at root.note root.logical root.depth }
{
    let used = root.note.used;
    if let Some(damage) = wants_between(at + 8, used, 1, capacity(head.pages)) {
        return Some(damage);
    }
    let logical = root.logical as u64;
    wants_equal(at + 24, logical, logical_pages(used)).or(wants_between(
        at + 16,
        root.note.directory,
        0,
        used - 1,
    ).or(wants_depth(head.format, head.pages, at + 4092, root.depth)))
}

// Which root page is selected.
fn read_selector<H: Host>(host: &mut H) -> Result<bool, HostFailed>
    requires { (bytes : List ℕ) → (H.outside host.old).contents bytes → 16384 ≤ length bytes }
    ensures selected { IfOk result (λ second. (bytes : List ℕ) → (H.outside host.old).contents bytes → selects bytes ≡ second) }
    ensures looks { Looks (H.outside host.old) (H.outside host.new) 1 }
    ensures cause { IfErr result (λ _. Rose (H.outside host.old).device_faults (H.outside host.new).device_faults) }
{
    let byte = read_byte(host, PAGE_BYTES as u64)?;
    Ok(byte % 2 == 1)
}

// The numbers of a root page, of its bytes.
fn root_of(bytes: &[u8]) -> Root
    requires { length bytes.now ≡ 4096 }
    ensures { IsRoot 0 bytes.now result }
{
    Root {
        note: Note {
            commits: LittleEndian::read_u64(bytes),
            used: LittleEndian::read_u64(&bytes[8..]),
            directory: LittleEndian::read_u64(&bytes[16..]),
        },
        logical: LittleEndian::read_u32(&bytes[24..]),
        depth: LittleEndian::read_u32(&bytes[4092..]),
    }
}

/// What the root page that is selected says, and its bytes, after page 0 that passed its tests.
pub fn read_root<H: Host>(host: &mut H, head: Head, page: &mut [u8]) -> Result<Committed, OpenFault>
    requires fit { IsHeadFit head.format head.pages }
    requires pages { head.pages ≤ 1048576 }
    requires passed { (bytes : List ℕ) → (H.outside host.old).contents bytes → HasHead head.format head.pages bytes }
    requires size { length page.old ≡ 4096 }
    ensures fit { IfOk result IsFit }
    ensures commits { IfOk result (λ committed. committed.note.commits < 2 ^ 64) }
    ensures head { IfOk result (λ committed. (committed.format ≡ head.format) × (committed.pages ≡ head.pages)) }
    ensures selected { IfOk result (λ committed. (bytes : List ℕ) → (H.outside host.old).contents bytes → selects bytes ≡ committed.second) }
    ensures root { IfOk result (λ committed. (bytes : List ℕ) → (H.outside host.old).contents bytes → HasRoot committed.second committed.note committed.depth bytes) }
    ensures page { IfOk result (λ committed. (bytes : List ℕ) → (H.outside host.old).contents bytes → page.new ≡ take 4096 (drop (root_at committed.second) bytes)) }
    ensures size { length page.new ≡ 4096 }
    ensures looks { Looks (H.outside host.old) (H.outside host.new) 2 }
    ensures cause { IfErr result (IsRefusal (H.outside host.old) (H.outside host.new)) }
{
    let second = read_selector(host)?;
    let at = root_at(second);
    host.read_at(at, page)?;
    let root = root_of(page);
    if let Some(damage) = test_root(head, at, root) {
        return Err(damage.fault());
    }
    Ok(Committed {
        format: head.format,
        pages: head.pages,
        second,
        depth: root.depth,
        note: root.note,
    })
}
