//! A run over the volume of a host.
ghost use Rattle.std.specs.Prelude.{◌≡◌, ◌≢◌, ◌*◌, ◌+◌, ◌≤◌, [], List, ℕ, true, false, vec_capacity};
ghost use Rattle.ps_base.specs.CodeUnit.{unit_view};
ghost use Rattle.ps_program.specs.Node.{BodyNode};
ghost use Rattle.ps_port.specs.Telling.{LeavesDevice};
ghost use Rattle.session_run.specs.machine_core.obj_layout.declared.vault.VaultFault.TheVariants as vault_fault;
ghost use Rattle.session_run.specs.machine_core.swizzle.declared.fault.SwizzleFault.TheVariants.{Vault};
ghost use Rattle.session_run.specs.machine_core.Holding.{IsSound};
ghost use Rattle.session_run.specs.machine_core.Naming.{NamesObjects};
ghost use Rattle.machine_run.specs.Loaded.{IsNew};
ghost use Rattle.ps_causes.specs.ps_args.Words.{RunOf};
ghost use Rattle.ps_causes.specs.ps_args.Reading.{run_in, IsArea};
ghost use Rattle.ps_causes.specs.ps_volumes.Attaching.{IsStored};
ghost use Rattle.ps_causes.specs.obj_store.Store.{is_alone};
ghost use Rattle.ps_causes.specs.Runs.{area_size};
ghost use Rattle.ps_causes.specs.Steps.{ProgramWhy, RanTo};
ghost use Rattle.ps_command.specs.inside.Steps.{IsRunnable};
ghost use Rattle.ps_command.specs.inside.Running.{HasReport, RanBy, Sends, report_for, status_for};

use crate::prepare::Prepared;
use device_runs::runs_conclude;
use machine_run::load::{load, machine};
use ps_causes::obj_store::ObjStore;
use ps_causes::ps_args::RunWords;
use ps_causes::ps_reports::{Report, Status};
use ps_causes::ps_volumes::{Unattached, attached};
use ps_port::{Host, tell};
use session_meaning::programs_show_their_events;
use session_run::machine_core::obj_layout::vault::VaultFault;
use session_run::machine_core::swizzle::fault::SwizzleFault;
use session_run::machine_core::{Machine, RunEnd};
use session_run::run::run;
use std::alloc::Global;
use unit_meaning::checked_units_run_as_meant;
use vault_output::Output;

/// Runs what was prepared over the volume of the host, and gives its end beside the host. All memory is taken here, before the first event: the area, and room for the
/// images of a commit as large, of which no page is touched before it is used.
pub(crate) fn execute<H: Host>(
    alloc: Global,
    words: &RunWords,
    prepared: Prepared,
    host: H,
) -> (Result<Status, Report<'static>>, H)
    requires program { (program : BodyNode) × IsRunnable prepared.unit program }
    requires area { IsArea (run_in words.now) }
    ensures why { (program : BodyNode) → IsRunnable prepared.unit program → ProgramWhy H.outside host result.1 (run_in words.now) prepared.input.items program result.0 }
{
    let Ok(output) = Output::new(alloc) else {
        return (Err(Report::NoMemory), host);
    };
    let Ok(m) = machine(alloc, 128 * words.area_kib) else {
        return (Err(Report::NoMemory), host);
    };
    let Ok(images) = Vec::with_capacity(alloc, 128 * words.area_kib as usize) else {
        return (Err(Report::NoMemory), host);
    };
    match attached(alloc, host) {
        Ok(store) => run_attached(m, output, images, words, prepared, store),
        Err(Unattached { report, host }) => (Err(report), host),
    }
}

// Runs it over the store of the volume.
fn run_attached<H: Host>(
    m: Machine,
    output: Output,
    images: Vec<u64>,
    words: &RunWords,
    prepared: Prepared,
    store: ObjStore<H>,
) -> (Result<Status, Report<'static>>, H)
    requires program { (program : BodyNode) × IsRunnable prepared.unit program }
    requires fresh { IsNew (area_size (run_in words.now)) m }
    requires room { 128 * words.now.area_kib ≤ vec_capacity images }
    requires owed { output ≡ [] }
    requires live { store.live ≡ true }
    requires alone { is_alone store.table.pins.items ≡ true }
    ensures ran { (old : H) (program : BodyNode) → IsStored H.outside (H.outside old) store → IsRunnable prepared.unit program
        → RanTo (run_in words.now) prepared.input.items program (H.outside old) (H.outside result.1) result.0 }
{
    checked_units_run_as_meant();
    programs_show_their_events::<ObjStore<H>>();
    runs_conclude::<H>();
    let mut m = m;
    let Prepared { unit, input } = prepared;
    match load(&mut m, &store, &unit, words.turns, input) {
        Ok(()) => run_loaded(m, output, images, store),
        Err(fault) => (Err(report(fault)), store.release()),
    }
}

// Runs what is loaded. What is pending after the run goes out by the host.
fn run_loaded<H: Host>(
    m: Machine,
    output: Output,
    images: Vec<u64>,
    store: ObjStore<H>,
) -> (Result<Status, Report<'static>>, H)
    requires sound { IsSound m }
    requires names { NamesObjects m }
    requires room { m.objects.size ≤ vec_capacity images + 1 }
    requires owed { output ≡ [] }
    requires live { store.live ≡ true }
    requires alone { is_alone store.table.pins.items ≡ true }
    ensures ran { RanBy H.outside store m result.1 result.0 }
{
    let mut m = m;
    let mut output = output;
    let mut images = images;
    let mut store = store;
    match run(&mut m, &mut store, &mut output, &mut images) {
        Ok(end) => sent(Ok(status(end)), output, store.release()),
        Err(fault) => {
            if is_output(fault) {
                return (Ok(Status::Output), store.release());
            }
            sent(Err(report(fault)), output, store.release())
        }
    }
}

// What is pending goes out, and then the run ends so; or the output failed in it.
fn sent<H: Host>(
    end: Result<Status, Report<'static>>,
    output: Output,
    host: H,
) -> (Result<Status, Report<'static>>, H)
    ensures sends { Sends (H.outside host) (H.outside result.1) output end.entry result.0 }
    ensures device { LeavesDevice (H.outside host) (H.outside result.1) }
{
    let mut host = host;
    match tell::piece(&mut host, output.owed()) {
        Ok(()) => (end, host),
        Err(_) => (Ok(Status::Output), host),
    }
}

// Whether the output failed.
fn is_output(fault: SwizzleFault) -> bool
    ensures output { result ≡ true → fault ≡ Vault vault_fault.Output }
    ensures other { result ≡ false → fault ≢ Vault vault_fault.Output }
{
    matches!(fault, SwizzleFault::Vault(VaultFault::Output))
}

// The report of a fault.
fn report(fault: SwizzleFault) -> Report<'static>
    requires { HasReport fault }
    ensures { result ≡ report_for fault }
{
    match fault {
        SwizzleFault::AreaFull { top, wanted, size } => Report::AreaFull { top, wanted, size },
        SwizzleFault::Vault(VaultFault::Device) => Report::Device,
        SwizzleFault::Vault(
            VaultFault::Full {
                used,
                wanted,
                capacity,
            },
        ) => Report::VolumeFull {
            used,
            wanted,
            capacity,
        },
        SwizzleFault::Vault(VaultFault::Damaged { at, found, wanted }) => {
            Report::Damaged { at, found, wanted }
        }
        SwizzleFault::Vault(VaultFault::Output | VaultFault::NoPages { .. }) => unreachable!(),
    }
}

fn status(end: RunEnd) -> Status
    ensures { result ≡ status_for end }
{
    match end {
        RunEnd::Done => Status::Done,
        RunEnd::Trapped { .. } => Status::Trapped,
        RunEnd::OutOfTurns => Status::OutOfTurns,
    }
}
