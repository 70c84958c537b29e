//! The objects of words in memory: how they are tested, read and written over.
ghost use Rattle.std.specs.Prelude.{◌≡◌, ◌+◌, ◌<◌, ◌≤◌, ◌^◌, IfOk, IfErr, MatchOption, MatchResult, None, length, take, drop};
ghost use Rattle.std.specs.List.{AllByRecursion};
ghost use Rattle.obj_layout.specs.Header.{HasFitFields, HasFitLengths, header_fault, header_words, object_length};
ghost use Rattle.obj_layout.specs.Stored.{damage, damage_at, of_header, of_length, with_words};
ghost use Rattle.memory_vault.specs.Tested.{IsTested, IsDamageAt};

use obj_layout::header::{Header, LayoutFault, read_header};
use obj_layout::vault::VaultFault;

/// The header of the object with this PID, where it passes all tests. `wanted` is how many words it should have, where a caller knows.
pub fn object_at(words: &[u64], pid: u64, wanted: Option<u64>) -> Result<Header, VaultFault>
    ensures { MatchResult result (IsTested words.now pid wanted) (IsDamageAt pid (damage_at words.now pid wanted)) }
{
    let used = words.len() as u64;
    if pid < 1 {
        return Err(damaged(pid, pid, 1));
    }
    if pid >= used {
        return Err(damaged(pid, pid, used));
    }
    if pid + 4 > used {
        return Err(damaged(pid, pid + 4, used));
    }
    match header_at(words, pid as usize) {
        Ok(header) => match fault_of_length(pid, used, length_of(&header) as u64, wanted) {
            Some(fault) => Err(fault),
            None => Ok(header),
        },
        Err(fault) => Err(fault_of_header(pid, fault)),
    }
}

/// How many words the object has that begins with this header.
pub fn length_of(header: &Header) -> u32
    requires { HasFitLengths header.now }
    ensures { result ≡ object_length header.now }
{
    4 + header.refs + header.nums
}

/// Copies the words from `at` on into `into`, as many as that holds.
pub fn copy_from(words: &[u64], at: usize, into: &mut [u64])
    requires { at + length into.old ≤ length words.now }
    ensures { into.new ≡ take (length into.old) (drop at words.now) }
{
    let (_, rest) = words.split_at(at);
    let (front, _) = rest.split_at(into.len());
    into.copy_from_slice(front);
}

/// Writes `from` over the words from `at` on.
pub fn write_over(words: &mut [u64], at: usize, from: &[u64])
    requires { at + length from.now ≤ length words.old }
    ensures { words.new ≡ with_words words.old at from.now }
{
    words[at..at + from.len()].copy_from_slice(from);
}

/// A law: words are below 2^64.
pub fn are_wide(words: &[u64])
    ensures { AllByRecursion (λ word. word < 2 ^ 64) words.now }
{}

// The fault that tells these numbers at a PID.
fn damaged(at: u64, found: u64, wanted: u64) -> VaultFault
    ensures { IsDamageAt at (damage found wanted) result }
{
    VaultFault::Damaged { at, found, wanted }
}

// The header that the four words from `at` on spell.
fn header_at(words: &[u64], at: usize) -> Result<Header, LayoutFault>
    requires { at + 4 ≤ length words.now }
    ensures read { IfOk result (λ header. take 4 (drop at words.now) ≡ header_words header) }
    ensures fields { IfOk result HasFitFields }
    ensures lengths { IfOk result HasFitLengths }
    ensures refused { MatchResult result (λ _. header_fault (take 4 (drop at words.now)) ≡ None)
        (λ fault. header_fault (take 4 (drop at words.now)) ≡ Some fault) }
{
    let mut four = [0; 4];
    copy_from(words, at, &mut four);
    read_header(&four)
}

// What four words that spell no header are told as.
fn fault_of_header(pid: u64, fault: LayoutFault) -> VaultFault
    ensures { IsDamageAt pid (of_header fault) result }
{
    match fault {
        LayoutFault::UnknownKind { found } => damaged(pid, found as u64, 9),
        LayoutFault::BadBits { found } => damaged(pid, found as u64, 0),
        LayoutFault::BadLength { found, wanted } => damaged(pid, found, wanted),
    }
}

// What is wrong with the length of an object, if something is.
fn fault_of_length(pid: u64, used: u64, long: u64, wanted: Option<u64>) -> Option<VaultFault>
    requires { pid + long < 2 ^ 64 }
    ensures { MatchOption result (of_length pid used long wanted ≡ None) (IsDamageAt pid (of_length pid used long wanted)) }
{
    if pid + long > used {
        return Some(damaged(pid, pid + long, used));
    }
    match wanted {
        Some(count) if count != long => Some(damaged(pid, long, count)),
        _ => None,
    }
}
