//! An object that a vault gave, made ready to lie in the area.
ghost use Rattle.std.specs.Prelude.{◌≡◌, ◌+◌, ◌≤◌, ℕ, List, ◌++◌, take, drop, None, IfOk, IfErr, OnOk, MatchResult, length};
ghost use Rattle.obj_area.specs.Words.{AreWords};
ghost use Rattle.obj_layout.specs.ps_outside.Outside.{SameContents};
ghost use Rattle.obj_layout.specs.Stored.{Holds, IsHeaded, damage};
ghost use Rattle.obj_layout.specs.Storing.{IsStoreCall, reading, SameNumbers};
ghost use Rattle.obj_layout.specs.Header.{HasFitFields, HasFitLengths, header_words, object_length};
ghost use Rattle.swizzle.specs.Damaged.{IsStoredFault, far_damage, near_word};
ghost use Rattle.swizzle.specs.Fetched.{near_header, IsFar, IsFetched};
ghost use Rattle.swizzle.specs.Objects.{header_in};

use crate::texts::words_before;
use obj_layout::header::{Header, read_header, write_header};
use obj_layout::vault::{Vault, VaultFault};

const TOP_BIT: u64 = 1 << 63;

/// Fetches an object into the buffer, and gives it there the header that it has in the area, with this link. It is damaged where it has no number word,
/// where the bytes of a text or of code don't fit after its first number words, or where a reference is neither nil nor a PID.
pub fn fetch_near<V: Vault>(
    vault: &mut V,
    pid: u64,
    link: u32,
    buffer: &mut [u64],
) -> Result<Header, VaultFault>
    requires alive { V.alive vault.old }
    requires fits { (words : List ℕ) → Holds (V.outside vault.old) pid words → length words ≡ length buffer.old }
    ensures near { IfOk result (λ header. IsFetched (Holds (V.outside vault.old)) pid link buffer.new header) }
    ensures call { IsStoreCall (V.outside vault.old) (V.outside vault.new) (reading (length buffer.old)) result }
    ensures same { SameContents (V.outside vault.old) (V.outside vault.new) }
    ensures sound { OnOk result ((words : List ℕ) → Holds (V.outside vault.old) pid words → far_damage words ≡ None) }
    ensures fault { IfErr result (IsStoredFault (V.outside vault.old) pid) }
    ensures numbers { SameNumbers V.used_words V.directory_at V.most_words V.access vault.old vault.new }
    ensures alive { OnOk result (V.alive vault.new) }
{
    if let Err(fault) = vault.fetch(pid, buffer) {
        return Err(fault);
    }
    match far_header(buffer) {
        Ok(header) => {
            lay_header(buffer, pid, link, header);
            Ok(header)
        }
        Err(unfit) => Err(VaultFault::Damaged {
            at: pid,
            found: unfit.found,
            wanted: unfit.wanted,
        }),
    }
}

// What was tested and didn't hold.
#[derive(Clone, Copy)]
struct Unfit {
    found: u64,
    wanted: u64,
}

// The header of the object that these words are, where it may come into the area; else the first test that they fail.
fn far_header(words: &[u64]) -> Result<Header, Unfit>
    requires { IsHeaded words.now }
    ensures far { IfOk result (IsFar words.now) }
    ensures tested { MatchResult result (λ _. far_damage words.now ≡ None) (λ unfit. far_damage words.now ≡ damage unfit.found unfit.wanted) }
    ensures words { AreWords words.now }
{
    let header = headed(words);
    if header.nums == 0 {
        return Err(Unfit {
            found: 0,
            wanted: 1,
        });
    }
    let room = 8 * header.nums as u64;
    let bytes = 8 * words_before(header.kind) as u64 + header.bytes as u64;
    if bytes > room {
        return Err(Unfit {
            found: bytes,
            wanted: room,
        });
    }
    match first_near(&words[4..4 + header.refs as usize]) {
        Some(word) => Err(Unfit {
            found: word,
            wanted: 0,
        }),
        None => Ok(header),
    }
}

// The header that words begin with.
fn headed(words: &[u64]) -> Header
    requires { IsHeaded words.now }
    ensures header { result ≡ header_in words.now }
    ensures spelled { take 4 words.now ≡ header_words result }
    ensures fields { HasFitFields result }
    ensures lengths { HasFitLengths result }
    ensures long { length words.now ≡ object_length result }
{
    match read_header(&[words[0], words[1], words[2], words[3]]) {
        Ok(header) => header,
        Err(_) => unreachable!(),
    }
}

// The first of these words that is neither nil nor a PID.
fn first_near(words: &[u64]) -> Option<u64>
    ensures { result ≡ near_word words.now }
{
    for word in words {
        if *word != 0 && *word <= TOP_BIT {
            return Some(*word);
        }
    }
    None
}

// Writes the header that the object has in the area over its own.
fn lay_header(buffer: &mut [u64], pid: u64, link: u32, header: Header)
    requires long { 4 ≤ length buffer.old }
    requires lengths { HasFitLengths header }
    ensures { buffer.new ≡ header_words (near_header pid link header) ++ drop 4 buffer.old }
{
    let near = Header {
        flags: 0,
        pid,
        chain: u64::from(link),
        ..header
    };
    let mut words = [0; 4];
    write_header(&near, &mut words);
    buffer[..4].copy_from_slice(&words);
}
