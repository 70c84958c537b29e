//! The volume of a run.

ghost use Rattle.std.specs.Prelude.{◌≡◌, IfErr, IfOk};
ghost use Rattle.ps_volumes.specs.Attaching.{IsStored, IsUnattached, report_for};

use obj_store::ObjStore;
use obj_store::paged_volume::Refused;
use obj_store::paged_volume::volume_parts::OpenFault;
use ps_port::Host;
use ps_reports::Report;
use std::alloc::Global;
use volume_next::migrate;

/// A host whose volume wasn't attached, and the report of why.
#[derive(Drop)]
pub struct Unattached<H: Host> {
    pub report: Report<'static>,
    pub host: H,
}

/// Attaches the volume of a host, by a sync and then the tests of its file (`docs/formats.md`), and gives the store of the objects in it. A volume of an
/// older form is moved into the last one first, and a crash then leaves what was held: the same words under the same directory. Where there is no
/// volume, the report says why: the device failed, the file is no volume, it is damaged, or there was no memory. Nothing is output.
pub fn attached<H: Host>(alloc: Global, host: H) -> Result<ObjStore<H>, Unattached<H>>
    ensures ok { IfOk result (λ store. IsStored H.outside (H.outside host) store) }
    ensures err { IfErr result (λ refused. IsUnattached (H.outside host) (H.outside refused.host) refused.report) }
{
    match migrate(alloc, host) {
        Ok((host, _)) => match ObjStore::attach(alloc, host) {
            Ok(store) => Ok(store),
            Err(refused) => Err(reported(refused)),
        },
        Err(refused) => Err(reported(refused)),
    }
}

// A refusal with its report.
fn reported<H: Host>(refused: Refused<H>) -> Unattached<H>
    ensures host { result.host ≡ refused.host }
    ensures report { result.report ≡ report_for refused.cause }
{
    let Refused { cause, host } = refused;
    Unattached {
        report: report_of(cause),
        host,
    }
}

// Why there is no volume.
fn report_of(cause: OpenFault) -> Report<'static>
    ensures { result ≡ report_for cause }
{
    match cause {
        OpenFault::Device => Report::Device,
        OpenFault::NotAVolume { size, gate } => Report::NotAVolume { size, gate },
        OpenFault::Damaged { at, found, wanted } => Report::Damaged { at, found, wanted },
        OpenFault::Memory => Report::NoMemory,
    }
}
