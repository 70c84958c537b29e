//! Runs of units, and what they return as a text.

ghost use Rattle.std.specs.Prelude.{◌≡◌, true};
ghost use Rattle.machine_run.specs.Loaded.{IsRoomy};

use crate::came::Came;
use crate::settings::Settings;
use machine_run::load::{load, machine};
use machine_run::obj_layout::vault::{Vault, VaultFault};
use machine_run::run::run;
use machine_run::swizzle::fault::SwizzleFault;
use machine_run::vault_output::Output;
use machine_run::{Machine, RunEnd};
use memory_host::MemoryHost;
use no_store::NoStore;
use ps_base::code_unit::CodeUnit;
use std::alloc::{AllocError, Global};
use unit_rows::put_line;
use unit_rows::table_rows::Buffer;

/// The bytes that the host of a test has room for.
const ROOM: u64 = 262_144;

// A host with room for what a test tells, of which this call fails.
fn host(alloc: Global, failing: Option<u64>) -> Result<MemoryHost, AllocError> {
    match failing {
        Some(number) => MemoryHost::new(alloc, b"", &[number], u64::MAX, ROOM),
        None => MemoryHost::new(alloc, b"", &[], u64::MAX, ROOM),
    }
}

/// Writes what a unit returns and tells, with this input, where this call of the host fails. Where one is to fail, it says as well how many calls the
/// host had.
pub fn put_run(
    out: &mut Buffer,
    settings: Settings,
    unit: &CodeUnit,
    input: &[u8],
    failing: Option<u64>,
) {
    match host(out.alloc(), failing) {
        Ok(host) => {
            let mut vault = NoStore::new(host);
            put_came(out, settings, unit, input, &mut vault);
            let host = vault.host();
            put_told(out, failing.map(|_| host.clock()), host.told_bytes());
        }
        Err(_) => out.fail(),
    }
}

// Writes what a unit returns with this input, over a new machine.
fn put_came(
    out: &mut Buffer,
    settings: Settings,
    unit: &CodeUnit,
    input: &[u8],
    vault: &mut NoStore<MemoryHost>,
)
    requires alive { vault.old.alive ≡ true }
{
    match came_on(out.alloc(), settings, unit, input, vault) {
        Ok(came) => came.put(out),
        Err(_) => out.fail(),
    }
}

// What a unit returns with this input, over a new machine.
fn came_on(
    alloc: Global,
    settings: Settings,
    unit: &CodeUnit,
    input: &[u8],
    vault: &mut NoStore<MemoryHost>,
) -> Result<Came, AllocError>
    requires alive { vault.old.alive ≡ true }
{
    let input = Vec::from_slice(alloc, input)?;
    let mut output = Output::new(alloc)?;
    let mut machine = machine(alloc, settings.words.clamp(5, 1 << 25))?;
    Ok(came_of(
        &mut machine,
        vault,
        &mut output,
        unit,
        settings.turns,
        input,
    ))
}

// What a unit returns in so many turns, with this input.
fn came_of(
    machine: &mut Machine,
    vault: &mut NoStore<MemoryHost>,
    output: &mut Output,
    unit: &CodeUnit,
    turns: u64,
    input: Vec<u8>,
) -> Came
    requires roomy { IsRoomy machine.old }
    requires alive { vault.old.alive ≡ true }
{
    match load(machine, vault, unit, turns, input) {
        Ok(()) => {
            let ended = run(machine, vault, output);
            Came::of_run(flushed(vault, output, ended))
        }
        Err(fault) => Came::of_fault(fault),
    }
}

// What is pending after a run goes out.
fn flushed(
    vault: &mut NoStore<MemoryHost>,
    output: &mut Output,
    ended: Result<RunEnd, SwizzleFault>,
) -> Result<RunEnd, SwizzleFault> {
    if !vault.is_alive() {
        return ended;
    }
    match output.flush(vault) {
        Ok(()) => ended,
        Err(_) => Err(SwizzleFault::Vault(VaultFault::Output)),
    }
}

/// Writes how many calls the host had, where that is asked, and what was output, where anything was: each in a line.
pub fn put_told(out: &mut Buffer, calls: Option<u64>, told: &[u8]) {
    if let Some(count) = calls {
        out.put("\ncalls ");
        out.number(count);
    }
    if !told.is_empty() {
        out.put("\n");
        put_line(out, told);
    }
    out.put("\n");
}
