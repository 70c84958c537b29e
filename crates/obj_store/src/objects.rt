//! The objects of a volume: how they are tested, read, appended and written over.

ghost use Rattle.std.specs.Prelude.{◌≡◌, ◌≢◌, ◌⊎◌, ℕ, ◌+◌, ◌*◌, ◌/◌, ◌<◌, ◌≤◌, ◌^◌, List, length, take, drop, Option, Some, None, MatchOption, IfOk, IfErr, OnOk};
ghost use Rattle.obj_layout.specs.ps_outside.Outside.{Rose};
ghost use Rattle.obj_layout.specs.ps_outside.Past.{KeepsPast};
ghost use Rattle.volume_parts.specs.Calls.{Looks};
ghost use Rattle.paged_volume.specs.Layout.{capacity_of};
ghost use Rattle.volume_parts.specs.Layout.{pages_of_words};
ghost use Rattle.paged_volume.specs.Standing.{IsAlive, seen};
ghost use Rattle.paged_volume.specs.Staging.{HasPages};
ghost use Rattle.obj_layout.specs.Header.{HasFitFields, HasFitLengths, header_fault, header_words, object_length};
ghost use Rattle.obj_layout.specs.Stored.{length_there, Space, Holds, IsHeaded, of_header, of_length, of_words, damage, appended, overwritten};
ghost use Rattle.obj_layout.specs.Storing.{Becomes, reading, writing};
ghost use Rattle.paged_volume.specs.Pinning.{KeepsPins};
ghost use Rattle.obj_store.specs.Kept.{AreHeld};
ghost use Rattle.obj_store.specs.Spaces.{IsInOrder, IsUsable, directory_in, spaces, spaces_at};
ghost use Rattle.obj_store.specs.Tested.{Fits, TellsDamage, HasFour, IsObjectFault, IsOverwriteFault, IsAppendFault, IsObjectHeader, IsWhole, IsDamageAt};
ghost use Rattle.obj_store.specs.Staging.{SamePins};
ghost use Rattle.obj_store.specs.Viewing.{IsSource};
ghost use Rattle.paged_volume.specs.Staging.{Stages};

use crate::kept::KeptPages;
use crate::lacking::vault_fault;
use crate::reading::read_words;
use crate::source::Source;
use crate::writing::write_words;
use obj_layout::header::{Header, LayoutFault, read_header};
use obj_layout::vault::VaultFault;
use paged_volume::Volume;
use paged_volume::layout::{capacity, logical_pages};
use ps_port::Host;

// The fault that tells these numbers at a PID.
fn damaged(at: u64, found: u64, wanted: u64) -> VaultFault
    ensures { IsDamageAt at (damage found wanted) result }
{
    VaultFault::Damaged { at, found, wanted }
}

// What is wrong with a PID at which no four words stand.
fn fault_of_place(pid: u64, used: u64) -> Option<VaultFault>
    requires { used < 2 ^ 30 }
    ensures { MatchOption result ((1 ≤ pid) × (pid + 4 ≤ used)) (λ fault. (wanted : Option ℕ) → TellsDamage pid wanted (λ words. length words ≡ used) fault) }
{
    if pid < 1 {
        return Some(damaged(pid, pid, 1));
    }
    if pid >= used {
        return Some(damaged(pid, pid, used));
    }
    if pid + 4 > used {
        return Some(damaged(pid, pid + 4, used));
    }
    None
}

// What four words that spell no header are told as.
fn fault_of_header(pid: u64, fault: LayoutFault) -> VaultFault
    ensures { IsDamageAt pid (of_header fault) result }
{
    match fault {
        LayoutFault::UnknownKind { found } => damaged(pid, found as u64, 9),
        LayoutFault::BadBits { found } => damaged(pid, found as u64, 0),
        LayoutFault::BadLength { found, wanted } => damaged(pid, found, wanted),
    }
}

// What is wrong with the length of an object, if something is.
fn fault_of_length(pid: u64, used: u64, long: u64, wanted: Option<u64>) -> Option<VaultFault>
    requires { pid + long < 2 ^ 64 }
    ensures { MatchOption result (of_length pid used long wanted ≡ None) (IsDamageAt pid (of_length pid used long wanted)) }
{
    if pid + long > used {
        return Some(damaged(pid, pid + long, used));
    }
    match wanted {
        Some(count) if count != long => Some(damaged(pid, long, count)),
        _ => None,
    }
}

/// How many words the object has that begins with this header.
pub fn length_of(header: &Header) -> u32
    requires { HasFitLengths header.now }
    ensures { result ≡ object_length header.now }
{
    4 + header.refs + header.nums
}

// The header that stands at a PID, where its object passes the tests.
fn header_of(
    four: &[u64; 4],
    pid: u64,
    used: u64,
    wanted: Option<u64>,
) -> Result<Header, VaultFault>
    requires place { (1 ≤ pid) × (pid + 4 ≤ used) }
    requires small { used < 2 ^ 30 }
    ensures fits { IfOk result (Fits pid used wanted) }
    ensures spelled { IfOk result (λ header. four.now ≡ header_words header) }
    ensures sound { OnOk result (of_words pid used four.now (header_fault four.now) wanted ≡ None) }
    ensures refused { IfErr result (IsDamageAt pid (of_words pid used four.now (header_fault four.now) wanted)) }
{
    match read_header(four) {
        Ok(header) => match fault_of_length(pid, used, length_of(&header) as u64, wanted) {
            Some(fault) => Err(fault),
            None => Ok(header),
        },
        Err(fault) => Err(fault_of_header(pid, fault)),
    }
}

/// The header of the object with this PID, where it passes all tests. `wanted` is how many words it should have, where a caller knows. It takes
/// two calls of the device at most.
fn object_at<H: Host>(
    volume: &mut Volume<H>,
    kept: &mut KeptPages,
    source: Source,
    used: u64,
    pid: u64,
    wanted: Option<u64>,
) -> Result<Header, VaultFault>
    requires alive { IsAlive volume.old.live volume.old.table (H.outside volume.old.host) }
    requires kept { AreHeld kept.old.places.items volume.old.table (H.outside volume.old.host) }
    requires source { IsSource volume.old.table source }
    requires order { IsUsable used (directory_in source volume.old.table) volume.old.table.committed }
    ensures fits { IfOk result (Fits pid used wanted) }
    ensures header { IfOk result (IsObjectHeader (spaces_at source used volume.old.table (H.outside volume.old.host)) pid wanted) }
    ensures fault { IfErr result (IsObjectFault (spaces_at source used volume.old.table (H.outside volume.old.host))
        (spaces_at source used volume.new.table (H.outside volume.new.host)) pid wanted) }
    ensures looks { Looks (H.outside volume.old.host) (H.outside volume.new.host) 2 }
    ensures same { volume.new.table ≡ volume.old.table }
    ensures alive { OnOk result (IsAlive volume.new.live volume.new.table (H.outside volume.new.host)) }
    ensures kept { OnOk result (AreHeld kept.new.places.items volume.new.table (H.outside volume.new.host)) }
{
    if let Some(fault) = fault_of_place(pid, used) {
        return Err(fault);
    }
    let mut four = [0u64; 4];
    match read_words(volume, kept, source, pid, &mut four) {
        Ok(()) => header_of(&four, pid, used, wanted),
        Err(_) => Err(VaultFault::Device),
    }
}

/// How many words the object has, its header included.
pub fn length_at<H: Host>(
    volume: &mut Volume<H>,
    kept: &mut KeptPages,
    source: Source,
    used: u64,
    pid: u64,
) -> Result<u32, VaultFault>
    requires alive { IsAlive volume.old.live volume.old.table (H.outside volume.old.host) }
    requires kept { AreHeld kept.old.places.items volume.old.table (H.outside volume.old.host) }
    requires source { IsSource volume.old.table source }
    requires order { IsUsable used (directory_in source volume.old.table) volume.old.table.committed }
    ensures told { IfOk result (λ count. (words : List ℕ) → Holds (spaces_at source used volume.old.table (H.outside volume.old.host)) pid words → length words ≡ count) }
    ensures stands { IfOk result (λ count. (space : Space) → (spaces_at source used volume.old.table (H.outside volume.old.host)).contents space → length_there pid space ≡ count) }
    ensures sound { OnOk result (IsWhole (spaces_at source used volume.old.table (H.outside volume.old.host)) pid None) }
    ensures fault { IfErr result (IsObjectFault (spaces_at source used volume.old.table (H.outside volume.old.host))
        (spaces_at source used volume.new.table (H.outside volume.new.host)) pid None) }
    ensures looks { Looks (H.outside volume.old.host) (H.outside volume.new.host) 2 }
    ensures same { volume.new.table ≡ volume.old.table }
    ensures alive { OnOk result (IsAlive volume.new.live volume.new.table (H.outside volume.new.host)) }
    ensures kept { OnOk result (AreHeld kept.new.places.items volume.new.table (H.outside volume.new.host)) }
{
    match object_at(volume, kept, source, used, pid, None) {
        Ok(header) => Ok(length_of(&header)),
        Err(fault) => Err(fault),
    }
}

// Whether words that were read begin with a header that gives their number, as they should.
fn test_words(words: &[u64], pid: u64, used: u64) -> Result<(), VaultFault>
    requires place { (1 ≤ pid) × (pid + 4 ≤ used) }
    requires small { used < 2 ^ 30 }
    requires some { 4 ≤ length words.now }
    ensures headed { OnOk result (IsHeaded words.now) }
    ensures refused { IfErr result (TellsDamage pid (Some (length words.now)) (HasFour used pid (take 4 words.now))) }
{
    let mut four = [0u64; 4];
    four.copy_from_slice(&words[..4]);
    match header_of(&four, pid, used, Some(words.len() as u64)) {
        Ok(_) => Ok(()),
        Err(fault) => Err(fault),
    }
}

/// Gives the words of an object, as many as `into` has.
pub fn fetch_at<H: Host>(
    volume: &mut Volume<H>,
    kept: &mut KeptPages,
    source: Source,
    used: u64,
    pid: u64,
    into: &mut [u64],
) -> Result<(), VaultFault>
    requires alive { IsAlive volume.old.live volume.old.table (H.outside volume.old.host) }
    requires kept { AreHeld kept.old.places.items volume.old.table (H.outside volume.old.host) }
    requires source { IsSource volume.old.table source }
    requires order { IsUsable used (directory_in source volume.old.table) volume.old.table.committed }
    ensures read { OnOk result ((space : Space) → (spaces_at source used volume.old.table (H.outside volume.old.host)).contents space →
        take (length into.old) (drop pid space.words) ≡ into.new) }
    ensures headed { OnOk result (IsHeaded into.new) }
    ensures sound { OnOk result (IsWhole (spaces_at source used volume.old.table (H.outside volume.old.host)) pid (Some (length into.old))) }
    ensures fault { IfErr result (IsObjectFault (spaces_at source used volume.old.table (H.outside volume.old.host))
        (spaces_at source used volume.new.table (H.outside volume.new.host)) pid (Some (length into.old))) }
    ensures looks { Looks (H.outside volume.old.host) (H.outside volume.new.host) (reading (length into.old)) }
    ensures same { volume.new.table ≡ volume.old.table }
    ensures alive { OnOk result (IsAlive volume.new.live volume.new.table (H.outside volume.new.host)) }
    ensures kept { OnOk result (AreHeld kept.new.places.items volume.new.table (H.outside volume.new.host)) }
{
    let _header = object_at(volume, kept, source, used, pid, Some(into.len() as u64))?;
    match read_words(volume, kept, source, pid, into) {
        Ok(()) => test_words(into, pid, used),
        Err(_) => Err(VaultFault::Device),
    }
}

/// Stores a new object after the used words.
pub fn append_at<H: Host>(
    volume: &mut Volume<H>,
    kept: &mut KeptPages,
    used: u64,
    words: &[u64],
) -> Result<(), VaultFault>
    requires alive { IsAlive volume.old.live volume.old.table (H.outside volume.old.host) }
    requires kept { AreHeld kept.old.places.items volume.old.table (H.outside volume.old.host) }
    requires order { IsInOrder used volume.old.table.committed }
    requires has { HasPages volume.old.table (pages_of_words used) }
    ensures becomes { OnOk result (Becomes (spaces used volume.old.table (H.outside volume.old.host))
        (spaces (used + length words.now) volume.new.table (H.outside volume.new.host)) (appended words.now)) }
    ensures fault { IfErr result (IsAppendFault (H.outside volume.old.host) (H.outside volume.new.host) volume.new.table used (length words.now) (capacity_of volume.old.table.committed.pages)) }
    ensures past { KeepsPast (H.outside volume.old.host) (H.outside volume.new.host) }
    ensures stages { Stages (seen volume.old.table (H.outside volume.old.host)) (seen volume.new.table (H.outside volume.new.host))
        (writing (length words.now)) }
    ensures committed { volume.new.table.committed ≡ volume.old.table.committed }
    ensures pins { SamePins volume.old.table volume.new.table }
    ensures pinned { OnOk result (KeepsPins volume.old.table volume.new.table (H.outside volume.old.host) (H.outside volume.new.host)) }
    ensures order { OnOk result (IsInOrder (used + length words.now) volume.new.table.committed) }
    ensures has { OnOk result (HasPages volume.new.table (pages_of_words (used + length words.now))) }
    ensures alive { OnOk result (IsAlive volume.new.live volume.new.table (H.outside volume.new.host)) }
    ensures kept { OnOk result (AreHeld kept.new.places.items volume.new.table (H.outside volume.new.host)) }
{
    let wanted = words.len() as u64;
    let capacity = capacity(volume.pages());
    if wanted > capacity - used {
        return Err(VaultFault::Full {
            used,
            wanted,
            capacity,
        });
    }
    let had = logical_pages(used) as u32;
    match write_words(volume, kept, had, used, words) {
        Ok(()) => Ok(()),
        Err(fault) => Err(vault_fault(fault)),
    }
}

/// Puts these words in place of those of an object.
pub fn overwrite_at<H: Host>(
    volume: &mut Volume<H>,
    kept: &mut KeptPages,
    used: u64,
    pid: u64,
    words: &[u64],
) -> Result<(), VaultFault>
    requires alive { IsAlive volume.old.live volume.old.table (H.outside volume.old.host) }
    requires kept { AreHeld kept.old.places.items volume.old.table (H.outside volume.old.host) }
    requires order { IsInOrder used volume.old.table.committed }
    requires has { HasPages volume.old.table (pages_of_words used) }
    ensures becomes { OnOk result (Becomes (spaces used volume.old.table (H.outside volume.old.host))
        (spaces used volume.new.table (H.outside volume.new.host)) (overwritten pid words.now)) }
    ensures sound { OnOk result (IsWhole (spaces used volume.old.table (H.outside volume.old.host)) pid (Some (length words.now))) }
    ensures fault { IfErr result (IsOverwriteFault (spaces used volume.old.table (H.outside volume.old.host))
        (spaces used volume.new.table (H.outside volume.new.host)) volume.new.table pid (Some (length words.now))) }
    ensures past { KeepsPast (H.outside volume.old.host) (H.outside volume.new.host) }
    ensures stages { Stages (seen volume.old.table (H.outside volume.old.host)) (seen volume.new.table (H.outside volume.new.host))
        (writing (length words.now)) }
    ensures committed { volume.new.table.committed ≡ volume.old.table.committed }
    ensures pins { SamePins volume.old.table volume.new.table }
    ensures pinned { OnOk result (KeepsPins volume.old.table volume.new.table (H.outside volume.old.host) (H.outside volume.new.host)) }
    ensures has { OnOk result (HasPages volume.new.table (pages_of_words used)) }
    ensures alive { OnOk result (IsAlive volume.new.live volume.new.table (H.outside volume.new.host)) }
    ensures kept { OnOk result (AreHeld kept.new.places.items volume.new.table (H.outside volume.new.host)) }
{
    let _header = object_at(
        volume,
        kept,
        Source::Staged,
        used,
        pid,
        Some(words.len() as u64),
    )?;
    let had = logical_pages(used) as u32;
    match write_words(volume, kept, had, pid, words) {
        Ok(()) => Ok(()),
        Err(fault) => Err(vault_fault(fault)),
    }
}
