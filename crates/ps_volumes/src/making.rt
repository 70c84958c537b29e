//! A new volume.

ghost use Rattle.std.specs.Prelude.{◌≤◌};
ghost use Rattle.ps_volumes.specs.Making.{Makes};

use obj_store::paged_volume::format;
use obj_store::paged_volume::volume_parts::FormatFault;
use ps_port::Host;
use ps_reports::Report;

/// Makes a volume of so many pages, 32 to 1,048,576, on the device of a host; nothing is output. Where there is one already, it is left as it is; where the
/// device failed, what stands there then is no volume, or the old file with any byte 0, or the new volume, whole.
pub fn make_volume<H: Host>(host: &mut H, pages: u32) -> Result<(), Report<'static>>
    requires { (32 ≤ pages) × (pages ≤ 1048576) }
    ensures { Makes pages (H.outside host.old) (H.outside host.new) result }
{
    match format(host, pages) {
        Ok(()) => Ok(()),
        Err(FormatFault::Device) => Err(Report::Device),
        Err(FormatFault::AlreadyVolume { .. }) => Err(Report::AlreadyAVolume),
    }
}
