//! What is done with an output, step by step.
ghost use Rattle.std.specs.Prelude.{◌≡◌, true, IfOk, OnOk};

use memory_host::MemoryHost;
use no_store::NoStore;
use std::alloc::{AllocError, Global};
use vault_output::Output;
use vault_output::obj_layout::vault::VaultFault;

/// It writes so many bytes, those that `bytes` begins with, or so many spaces, or puts all that is pending.
#[derive(Clone, Copy)]
pub enum Step {
    Write(usize),
    Blanks(u32),
    Flush,
}

/// 200,000 bytes, of which none is a space and no two pieces are alike.
pub fn many_bytes(alloc: Global) -> Result<Vec<u8>, AllocError> {
    let mut bytes = Vec::with_capacity(alloc, 200_000)?;
    for number in 0u32..200_000 {
        bytes.push(33 + (number % 199) as u8)?;
    }
    Ok(bytes)
}

/// A vault that is alive, with room for more than 300,000 bytes. The calls of its host with these numbers are to fail, and tell the
/// first half.
pub fn vault(alloc: Global, failing: &[u64]) -> Result<NoStore<MemoryHost>, AllocError>
    ensures { IfOk result (λ vault. vault.alive ≡ true) }
{
    let host = MemoryHost::new(alloc, b"", failing, 100, 400_000)?;
    Ok(NoStore::new(host))
}

// One step.
fn take_step(
    output: &mut Output,
    vault: &mut NoStore<MemoryHost>,
    bytes: &[u8],
    step: Step,
) -> Result<(), VaultFault>
    requires { vault.old.alive ≡ true }
    ensures { OnOk result (vault.new.alive ≡ true) }
{
    match step {
        Step::Write(count) => output.write(vault, &bytes[..count.min(bytes.len())]),
        Step::Blanks(count) => output.blanks(vault, count),
        Step::Flush => output.flush(vault),
    }
}

/// Does steps one after the other, to the first fault.
pub fn run(
    output: &mut Output,
    vault: &mut NoStore<MemoryHost>,
    bytes: &[u8],
    steps: &[Step],
) -> Result<(), VaultFault>
    requires { vault.old.alive ≡ true }
{
    for one in steps {
        take_step(output, vault, bytes, *one)?;
    }
    Ok(())
}

/// All that steps write, one after the other.
pub fn written(alloc: Global, bytes: &[u8], steps: &[Step]) -> Result<Vec<u8>, AllocError> {
    let mut whole = Vec::new(alloc);
    for one in steps {
        match *one {
            Step::Write(count) => whole.extend_from_slice(&bytes[..count.min(bytes.len())])?,
            Step::Blanks(count) => {
                for _ in 0..count {
                    whole.push(b' ')?;
                }
            }
            Step::Flush => {}
        }
    }
    Ok(whole)
}
