//! A new volume is made.

ghost use Rattle.std.specs.Prelude.{◌≡◌, ℕ, ◌+◌, ◌*◌, ◌^◌, ◌<◌, ◌≤◌, List, ◌∷◌, length, OnOk, IfErr, IfOk};
ghost use Rattle.ps_port.specs.ps_outside.Outside.{After, Leaves, LeavesSame, SameContents, TellsNothing, Rose};
ghost use Rattle.volume_parts.specs.Layout.{gate};
ghost use Rattle.volume_parts.specs.Making.{IsCause, IsNone, IsShut, IsGateOf, IsZeroed};
ghost use Rattle.volume_parts.specs.Calls.{Works};
ghost use Rattle.volume_parts.specs.declared.format_fault.FormatFault.TheVariants.{Device};
ghost use Rattle.paged_volume.specs.Making.{IsNew, IsBegun, IsMaking, OpensGate, ShutsGate, Number, Stand, number, new_numbers};

use crate::head::read_byte;
use crate::layout::{LEAST_BYTES, MAGIC, PAGE_BYTES};
use crate::planning::depth_of;
use crate::syncing::write_synced;
use crate::writing::write_page;
use byteorder::{ByteOrder, LittleEndian};
use ps_port::{Host, HostFailed};
use volume_parts::FormatFault;

// The first pages of a new volume, in which its numbers stand; all pages after them are blank.
const FRONT_PAGES: u32 = 6;

const FRONT_BYTES: usize = 24_576;

/// Makes a volume of so many pages, 32 to 1,048,576, in format 2, without a database. At each moment an image is one from before in which byte 0 may be
/// anything, or its gate isn't open, or the new volume stands whole in it. From its first sync until its last write begins the gate of each image is
/// shut. A refusal for a volume that is there already leaves all as it was; `docs/formats.md` has the layout.
pub fn format<H: Host>(host: &mut H, pages: u32) -> Result<(), FormatFault>
    requires { (32 ≤ pages) × (pages ≤ 1048576) }
    ensures any_moment { Leaves (H.outside host.old) (H.outside host.new) (IsMaking (H.outside host.old) pages) }
    ensures gate { ShutsGate H.outside pages host.old host.new }
    ensures opened { OnOk result (OpensGate H.outside pages host.old host.new) }
    ensures made { OnOk result ((bytes : List ℕ) → (H.outside host.new).contents bytes → IsNew pages bytes × (gate bytes ≡ 1)) }
    ensures durable { OnOk result ((image : List ℕ) → (H.outside host.new).images (H.outside host.new).clock image → (H.outside host.new).contents image) }
    ensures none { OnOk result ((bytes : List ℕ) → (H.outside host.old).contents bytes → IsNone bytes) }
    ensures told { TellsNothing (H.outside host.old) (H.outside host.new) }
    ensures counts { (H.outside host.old).device_faults ≤ (H.outside host.new).device_faults }
    ensures output { (H.outside host.new).output_faults ≡ (H.outside host.old).output_faults }
    ensures cause { IfErr result (IsCause (H.outside host.old) (H.outside host.new)) }
{
    if let Some(gate) = open_gate(host)? {
        return Err(FormatFault::AlreadyVolume { gate });
    }
    write_synced(host, 0, &[0])?;
    fill(host, pages)?;
    open(host, pages)?;
    Ok(())
}

// The gate of a volume that is there already; None where there is none.
fn open_gate<H: Host>(host: &mut H) -> Result<Option<u8>, FormatFault>
    ensures images { LeavesSame (H.outside host.old) (H.outside host.new) }
    ensures contents { SameContents (H.outside host.old) (H.outside host.new) }
    ensures told { TellsNothing (H.outside host.old) (H.outside host.new) }
    ensures counts { (H.outside host.old).device_faults ≤ (H.outside host.new).device_faults }
    ensures output { (H.outside host.new).output_faults ≡ (H.outside host.old).output_faults }
    ensures gate { IfOk result (λ found. (bytes : List ℕ) → (H.outside host.old).contents bytes → IsGateOf bytes found) }
    ensures calls { (H.outside host.new).device_calls ≤ (H.outside host.old).device_calls + 2 }
    ensures cause { IfErr result (λ fault. (fault ≡ Device) × Rose (H.outside host.old).device_faults (H.outside host.new).device_faults) }
{
    let size = host.size()?;
    if size < LEAST_BYTES {
        return Ok(None);
    }
    let gate = read_byte(host, 0)?;
    if gate == 1 { Ok(Some(gate)) } else { Ok(None) }
}

// Writes a number into bytes in which others stand.
fn put_number(bytes: &mut [u8], at: usize, width: usize, value: u64)
    requires width { (1 ≤ width) × (width ≤ 8) }
    requires fits { value < 256 ^ width }
    requires room { at + width ≤ length bytes.old }
    ensures size { length bytes.new ≡ length bytes.old }
    ensures stand { (numbers : List Number) → Stand numbers bytes.old → Stand (number at width value ∷ numbers) bytes.new }
{
    LittleEndian::write_uint(&mut bytes[at..], value, width);
}

// The first pages of a new volume, of which the gate is shut.
fn front(pages: u32) -> [u8; FRONT_BYTES]
    ensures size { length result ≡ 24576 }
    ensures stand { Stand (new_numbers pages) result }
{
    let depth = depth_of(pages) as u64;
    let mut bytes = [0u8; FRONT_BYTES];
    put_number(&mut bytes, 20_480, 4, 6 * depth);
    put_number(&mut bytes, 16_384, 4, 5);
    put_number(&mut bytes, 12_284, 4, depth);
    put_number(&mut bytes, 8220, 4, 4);
    put_number(&mut bytes, 8216, 4, 1);
    put_number(&mut bytes, 8200, 8, 1);
    put_number(&mut bytes, 8, 4, pages as u64);
    put_number(&mut bytes, 7, 1, 2);
    put_number(&mut bytes, 1, 6, MAGIC);
    bytes
}

// Writes the pages of a new volume after the gate, which stays shut, and lasts.
fn fill<H: Host>(host: &mut H, pages: u32) -> Result<(), HostFailed>
    requires pages { (32 ≤ pages) × (pages ≤ 1048576) }
    requires shut { (image : List ℕ) → (H.outside host.old).images (H.outside host.old).clock image → IsShut image }
    ensures any_moment { Leaves (H.outside host.old) (H.outside host.new) IsShut }
    ensures begun { OnOk result ((image : List ℕ) → (H.outside host.new).images (H.outside host.new).clock image → IsBegun pages image) }
    ensures works { Works (H.outside host.old) (H.outside host.new) result }
{
    let front = front(pages);
    host.write_at(1, &front[1..])?;
    blank_pages(host, pages)?;
    host.sync()
}

// Writes all pages after the first ones, which are blank.
fn blank_pages<H: Host>(host: &mut H, pages: u32) -> Result<(), HostFailed>
    requires shut { (image : List ℕ) → (H.outside host.old).images (H.outside host.old).clock image → IsShut image }
    requires reaches { (bytes : List ℕ) → (H.outside host.old).contents bytes → 24576 ≤ length bytes }
    requires pages { 6 ≤ pages }
    ensures any_moment { Leaves (H.outside host.old) (H.outside host.new) IsShut }
    ensures zeroed { OnOk result ((bytes : List ℕ) → (H.outside host.new).contents bytes → After (H.outside host.old).contents (IsZeroed 24576 (4096 * pages)) bytes) }
    ensures works { Works (H.outside host.old) (H.outside host.new) result }
{
    let blank = [0u8; PAGE_BYTES];
    for number in FRONT_PAGES..pages {
        match write_page(host, number, &blank) {
            Ok(()) => {}
            Err(failed) => return Err(failed),
        }
    }
    Ok(())
}

// Opens the gate of a volume that lasts.
fn open<H: Host>(host: &mut H, pages: u32) -> Result<(), HostFailed>
    requires pages { 32 ≤ pages }
    requires begun { (image : List ℕ) → (H.outside host.old).images (H.outside host.old).clock image → IsBegun pages image }
    ensures any_moment { Leaves (H.outside host.old) (H.outside host.new) (IsNew pages) }
    ensures calls { (H.outside host.new).device_calls ≤ (H.outside host.old).device_calls + 2 }
    ensures made { OnOk result ((bytes : List ℕ) → (H.outside host.new).contents bytes → IsNew pages bytes × (gate bytes ≡ 1)) }
    ensures durable { OnOk result ((image : List ℕ) → (H.outside host.new).images (H.outside host.new).clock image → (H.outside host.new).contents image) }
    ensures works { Works (H.outside host.old) (H.outside host.new) result }
{
    host.write_at(0, &[1])?;
    host.sync()
}
