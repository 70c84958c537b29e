//! The numbers of page 0, and their tests.

ghost use Rattle.std.specs.Prelude.{◌≡◌, ℕ, ◌+◌, ◌*◌, ◌/◌, ◌<◌, ◌≤◌, List, length, slice_index, None, Some, OnOk, IfErr, IfOk};
ghost use Rattle.ps_port.specs.ps_outside.Outside.{Rose};
ghost use Rattle.volume_parts.specs.Layout.{gate};
ghost use Rattle.volume_parts.specs.Calls.{Looks};
ghost use Rattle.paged_volume.specs.Found.{head_tests};
ghost use Rattle.paged_volume.specs.Standing.{IsHeadFit, HasHead};
ghost use Rattle.paged_volume.specs.Attaching.{IsHead, IsRefusal};

use crate::damage::{Damage, wants_between, wants_equal, wants_pages};
use crate::layout::{LEAST_BYTES, LEAST_PAGES, MAGIC, PAGE_BYTES, most_pages_of};
use byteorder::{ByteOrder, LittleEndian};
use ps_port::{Host, HostFailed};
use volume_parts::OpenFault;

/// The numbers of page 0 after the gate.
#[derive(Clone, Copy)]
pub struct Head {
    pub spelled: u64,
    pub format: u8,
    pub pages: u32,
}

// The first test of page 0 that fails, in a file of so many pages.
#[tactic(auto, unfolding(crate::specs::Found::head_tests))]
fn test_head(head: Head, present: u64) -> Option<Damage>
    ensures { result ≡ head_tests head.spelled head.format head.pages present }
{
    let pages = head.pages as u64;
    let most = most_pages_of(head.format) as u64;
    wants_equal(1, head.spelled, MAGIC).or(wants_between(7, head.format as u64, 1, 2).or(
        wants_between(8, pages, LEAST_PAGES as u64, most).or(wants_pages(present, pages)),
    ))
}

/// One byte of a file that has so many.
pub fn read_byte<H: Host>(host: &mut H, at: u64) -> Result<u8, HostFailed>
    requires { (bytes : List ℕ) → (H.outside host.old).contents bytes → at + 1 ≤ length bytes }
    ensures byte { IfOk result (λ byte. (bytes : List ℕ) → (H.outside host.old).contents bytes → byte ≡ slice_index bytes at) }
    ensures looks { Looks (H.outside host.old) (H.outside host.new) 1 }
    ensures cause { IfErr result (λ _. Rose (H.outside host.old).device_faults (H.outside host.new).device_faults) }
{
    let mut byte = [0u8; 1];
    host.read_at(at, &mut byte)?;
    Ok(byte[0])
}

// The gate of a file of this size; of an empty one 0.
fn read_gate<H: Host>(host: &mut H, size: u64) -> Result<u8, HostFailed>
    requires { (bytes : List ℕ) → (H.outside host.old).contents bytes → size ≡ length bytes }
    ensures gate { IfOk result (λ found. (bytes : List ℕ) → (H.outside host.old).contents bytes → found ≡ gate bytes) }
    ensures looks { Looks (H.outside host.old) (H.outside host.new) 1 }
    ensures cause { IfErr result (λ _. Rose (H.outside host.old).device_faults (H.outside host.new).device_faults) }
{
    if size == 0 { Ok(0) } else { read_byte(host, 0) }
}

// The numbers of page 0.
fn read_numbers<H: Host>(host: &mut H) -> Result<Head, HostFailed>
    requires { (bytes : List ℕ) → (H.outside host.old).contents bytes → 16384 ≤ length bytes }
    ensures head { IfOk result (λ head. (bytes : List ℕ) → (H.outside host.old).contents bytes → IsHead bytes head) }
    ensures looks { Looks (H.outside host.old) (H.outside host.new) 1 }
    ensures cause { IfErr result (λ _. Rose (H.outside host.old).device_faults (H.outside host.new).device_faults) }
{
    let mut bytes = [0u8; 12];
    host.read_at(0, &mut bytes)?;
    Ok(Head {
        spelled: LittleEndian::read_uint(&bytes[1..], 6),
        format: bytes[7],
        pages: LittleEndian::read_u32(&bytes[8..]),
    })
}

/// The numbers of page 0, which pass their tests.
pub fn read_head<H: Host>(host: &mut H) -> Result<Head, OpenFault>
    ensures fit { IfOk result (λ head. IsHeadFit head.format head.pages) }
    ensures says { IfOk result (λ head. (bytes : List ℕ) → (H.outside host.old).contents bytes → HasHead head.format head.pages bytes) }
    ensures looks { Looks (H.outside host.old) (H.outside host.new) 3 }
    ensures cause { IfErr result (IsRefusal (H.outside host.old) (H.outside host.new)) }
{
    let size = host.size()?;
    let gate = read_gate(host, size)?;
    if size < LEAST_BYTES || gate != 1 {
        return Err(OpenFault::NotAVolume { size, gate });
    }
    let head = read_numbers(host)?;
    if let Some(damage) = test_head(head, size / PAGE_BYTES as u64) {
        return Err(damage.fault());
    }
    Ok(head)
}
