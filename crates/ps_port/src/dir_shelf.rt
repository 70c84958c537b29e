ghost use Rattle.std.specs.Prelude.{◌≡◌, ℕ, ◌<◌, ◌≤◌, ◌+◌, length, vec_len, OnOk, IfOk, IfErr, IfSome};
ghost use Rattle.ps_base.specs.Limits.{most_text_bytes};
ghost use Rattle.ps_port.specs.declared.shelf.ShelfFault.TheVariants.{Failed};
ghost use Rattle.ps_outside.specs.Outside.{next_count};
ghost use Rattle.ps_port.specs.Texts.{TooLongFor};

use crate::{Shelf, ShelfFault};
use ps_base::LONGEST_TEXT;
use std::alloc::{AllocError, Global};
use std::fs;
use std::io::{ErrorKind, Read};
use std::rt::Files;

/// How many bytes are read at once.
const BUFFER_BYTES: usize = 16_384;

/// The most bytes of a file that are counted.
const MOST_COUNTED: u64 = 4_294_967_296;

/// The files of the real system as texts, under their names. It is trusted: it tells nothing of its
/// texts, since no contract says what a file gives.
#[derive(Drop)]
pub struct DirShelf<R> {
    rt: R,
    buffer: Vec<u8>,
    faults: u64,
}

impl<R: Files + Clone + Drop> DirShelf<R> {
    /// A shelf over the files that the system has.
    pub fn new(rt: &R, alloc: Global) -> Result<DirShelf<R>, AllocError>
        ensures { IfOk result (λ shelf. shelf.faults ≡ 0) }
    {
        Ok(DirShelf {
            rt: rt.clone()?,
            buffer: vec![in alloc; 0; BUFFER_BYTES]?,
            faults: 0,
        })
    }
}

impl<R: Files + Clone + Drop> Shelf for DirShelf<R> {
    ghost holds = { λ shelf name text. ⊥ };

    ghost lacks = { λ shelf name. ⊥ };

    ghost may_fail = { λ shelf name. Unit {0} };

    ghost faults = { λ shelf. shelf.faults };

    /// It fails where there is no file of this name, where it is a folder or can't be read, and where it
    /// gives more than 4,294,967,296 bytes.
    fn text(&mut self, name: &str, into: &mut Vec<u8>) -> Result<(), ShelfFault> {
        into.clear();
        match read_file(&self.rt, name, &mut self.buffer, into) {
            Ok(()) => Ok(()),
            Err(fault) => {
                into.clear();
                self.faults = count_failed(fault, self.faults);
                Err(fault)
            }
        }
    }
}

// One more, where it failed.
fn count_failed(fault: ShelfFault, count: u64) -> u64
    ensures failed { fault ≡ Failed → result ≡ next_count count }
    ensures counts { count ≤ result }
{
    match fault {
        ShelfFault::Failed => count.saturating_add(1),
        _ => count,
    }
}

// The file of this name, read to its end.
fn read_file<R: Files>(
    rt: &R,
    name: &str,
    buffer: &mut [u8],
    into: &mut Vec<u8>,
) -> Result<(), ShelfFault>
    requires { vec_len into.old ≡ 0 }
    ensures short { OnOk result (vec_len into.new ≤ most_text_bytes) }
    ensures long { IfErr result (λ fault. TooLongFor most_text_bytes (λ text. ⊥) fault) }
{
    match fs::open(rt, name) {
        Ok(mut file) => read_text(&mut file, buffer, into),
        Err(_) => Err(ShelfFault::Failed),
    }
}

/// What a file gives, to its end. The bytes are kept while they are no more than a text may have; all
/// of them are counted.
pub fn read_text<F: Read>(
    file: &mut F,
    buffer: &mut [u8],
    into: &mut Vec<u8>,
) -> Result<(), ShelfFault>
    requires { vec_len into.old ≡ 0 }
    ensures short { OnOk result (vec_len into.new ≤ most_text_bytes) }
    ensures long { IfErr result (λ fault. TooLongFor most_text_bytes (λ text. ⊥) fault) }
{
    let mut length = 0u64;
    for _ in 0..u64::MAX {
        let Some(count) = read_piece(file, buffer) else {
            return Err(ShelfFault::Failed);
        };
        if count == 0 {
            return if length <= LONGEST_TEXT as u64 {
                Ok(())
            } else {
                Err(ShelfFault::TooLong { length })
            };
        }
        length += count as u64;
        if length > MOST_COUNTED {
            return Err(ShelfFault::Failed);
        }
        if length <= LONGEST_TEXT as u64 {
            keep(into, &buffer[..count])?;
        }
    }
    Err(ShelfFault::Failed)
}

// Keeps some more bytes of a text, in no more memory than the longest text takes.
fn keep(into: &mut Vec<u8>, bytes: &[u8]) -> Result<(), AllocError>
    requires { vec_len into.old + length bytes.now ≤ most_text_bytes }
    ensures { OnOk result (vec_len into.new ≡ vec_len into.old + length bytes.now) }
{
    let wanted = into.len() + bytes.len();
    if wanted > into.capacity() {
        let capacity = into
            .capacity()
            .saturating_mul(2)
            .max(wanted)
            .min(LONGEST_TEXT);
        into.reserve_exact(capacity - into.len())?;
    }
    into.extend_from_slice(bytes)
}

// Reads some bytes, none at the end, and answers how many. A call that a signal interrupts is made
// again.
fn read_piece<F: Read>(file: &mut F, buffer: &mut [u8]) -> Option<usize>
    ensures { IfSome result (λ count. count ≤ length buffer.new) }
{
    for _ in 0..u64::MAX {
        match file.read(buffer) {
            Ok(count) => return Some(count),
            Err(fault) if fault.kind() == ErrorKind::Interrupted => {}
            Err(_) => return None,
        }
    }
    None
}
