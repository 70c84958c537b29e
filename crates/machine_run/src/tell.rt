//! What a run outputs: its writes, and the report of its end.
ghost use Rattle.std.specs.Prelude.{◌≡◌, ◌++◌, OnOk, IfErr};
ghost use Rattle.vault_output.specs.obj_layout.Storing.{SameNumbers};
ghost use Rattle.vault_output.specs.obj_layout.declared.vault.VaultFault.TheVariants as vault_fault;
ghost use Rattle.machine_core.specs.ps_heap.Ends.{report_of, Trapped, OutOfTurns, trap_number as number_of};
ghost use Rattle.machine_core.specs.ps_meaning.Meaning.{in_places};
ghost use Rattle.vault_output.specs.Sending.{Sends};
ghost use Rattle.machine_core.specs.Stepped.{end_of, text_of, IsItem};
ghost use Rattle.machine_run.specs.inside.Blanks.{blanks_of};
ghost use Rattle.ps_port.specs.Telling.{joined};

use itoa::Buffer;
use machine_core::objects::objects::Objects;
use machine_core::{Item, RunEnd, Writing};
use ps_base::line::Line;
use ps_base::trap::Trap;
use vault_output::Output;
use vault_output::obj_layout::vault::{Vault, VaultFault};

/// Writes what a write writes. Takes no memory.
#[inline]
pub(crate) fn writing<V: Vault>(
    output: &mut Output,
    vault: &mut V,
    objects: &Objects,
    writing: Writing,
) -> Result<(), VaultFault>
    requires alive { V.alive vault.old }
    requires item { IsItem objects.now writing.item }
    ensures sends { Sends (V.outside vault.old) (V.outside vault.new) (output.old ++ text_of objects.now writing) output.new result }
    ensures fault { IfErr result (λ fault. fault ≡ vault_fault.Output) }
    ensures numbers { SameNumbers V.used_words V.directory_at V.most_words V.access vault.old vault.new }
    ensures alive { OnOk result (V.alive vault.new) }
{
    match writing.item {
        Item::Int(z) => {
            let mut buffer = Buffer::new();
            placed(output, vault, writing.width, buffer.format(z).as_bytes())
        }
        Item::Flag(true) => placed(output, vault, writing.width, b"true"),
        Item::Flag(false) => placed(output, vault, writing.width, b"false"),
        Item::Text(at) => { placed(output, vault, writing.width, objects.text_bytes::<V>(at)) }
    }
}

// Writes a text right in its places.
#[inline]
fn placed<V: Vault>(
    output: &mut Output,
    vault: &mut V,
    width: Option<i32>,
    text: &[u8],
) -> Result<(), VaultFault>
    requires alive { V.alive vault.old }
    ensures sends { Sends (V.outside vault.old) (V.outside vault.new) (output.old ++ in_places width text.now) output.new result }
    ensures fault { IfErr result (λ fault. fault ≡ vault_fault.Output) }
    ensures numbers { SameNumbers V.used_words V.directory_at V.most_words V.access vault.old vault.new }
    ensures alive { OnOk result (V.alive vault.new) }
{
    match output.blanks(vault, blank_count(width, text.len())) {
        Ok(()) => output.write(vault, text),
        Err(fault) => Err(fault),
    }
}

// How many blanks stand before a text of so many bytes.
#[inline]
fn blank_count(width: Option<i32>, length: usize) -> u32
    ensures { result ≡ blanks_of width length }
{
    match width {
        Some(places) => {
            if places <= 0 {
                0
            } else {
                (places as usize).saturating_sub(length) as u32
            }
        }
        None => 0,
    }
}

/// Writes the report of an end.
pub(crate) fn report<V: Vault>(
    output: &mut Output,
    vault: &mut V,
    end: RunEnd,
) -> Result<(), VaultFault>
    requires { V.alive vault.old }
    ensures sends { Sends (V.outside vault.old) (V.outside vault.new) (output.old ++ report_of (end_of end)) output.new result }
    ensures fault { IfErr result (λ fault. fault ≡ vault_fault.Output) }
    ensures numbers { SameNumbers V.used_words V.directory_at V.most_words V.access vault.old vault.new }
    ensures alive { OnOk result (V.alive vault.new) }
{
    match end {
        RunEnd::Done => pieces(output, vault, &[]),
        RunEnd::Trapped { trap, line } => trapped(output, vault, trap, line),
        RunEnd::OutOfTurns => pieces(output, vault, &[b"out of turns\n"]),
    }
}

fn trapped<V: Vault>(
    output: &mut Output,
    vault: &mut V,
    trap: Trap,
    line: Line,
) -> Result<(), VaultFault>
    requires { V.alive vault.old }
    ensures sends { Sends (V.outside vault.old) (V.outside vault.new) (output.old ++ report_of (Trapped trap line)) output.new result }
    ensures fault { IfErr result (λ fault. fault ≡ vault_fault.Output) }
    ensures numbers { SameNumbers V.used_words V.directory_at V.most_words V.access vault.old vault.new }
    ensures alive { OnOk result (V.alive vault.new) }
{
    let mut of_trap = Buffer::new();
    let mut of_line = Buffer::new();
    let number = of_trap.format(trap_number(trap)).as_bytes();
    let line = of_line.format(line.0).as_bytes();
    pieces(
        output,
        vault,
        &[b"trap ", number, b" at line ", line, b"\n"],
    )
}

// Writes pieces one after the other. Where the output fails, no piece after is written.
fn pieces<V: Vault>(output: &mut Output, vault: &mut V, parts: &[&[u8]]) -> Result<(), VaultFault>
    requires { V.alive vault.old }
    ensures sends { Sends (V.outside vault.old) (V.outside vault.new) (output.old ++ joined parts.now) output.new result }
    ensures fault { IfErr result (λ fault. fault ≡ vault_fault.Output) }
    ensures numbers { SameNumbers V.used_words V.directory_at V.most_words V.access vault.old vault.new }
    ensures alive { OnOk result (V.alive vault.new) }
{
    for part in parts {
        if let Err(fault) = output.write(vault, part) {
            return Err(fault);
        }
    }
    Ok(())
}

// The number of a trap, as `docs/language.md` lists them.
fn trap_number(trap: Trap) -> u32
    ensures { result ≡ number_of trap }
{
    trap as u32
}
