ghost use Rattle.ps_port.specs.Telling.{TellsOrFails, LeavesDevice, joined};

use crate::{Host, HostFailed};

/// Writes one piece by a host.
pub fn piece<H: Host>(host: &mut H, bytes: &[u8]) -> Result<(), HostFailed>
    ensures tells { TellsOrFails (H.outside host.old) (H.outside host.new) bytes.now result }
    ensures device { LeavesDevice (H.outside host.old) (H.outside host.new) }
{
    host.put(bytes)
}

/// Writes pieces one after the other. Where the output fails, no piece after is output.
pub fn pieces<H: Host>(host: &mut H, parts: &[&[u8]]) -> Result<(), HostFailed>
    ensures tells { TellsOrFails (H.outside host.old) (H.outside host.new) (joined parts.now) result }
    ensures device { LeavesDevice (H.outside host.old) (H.outside host.new) }
{
    for part in parts {
        piece(host, part)?;
    }
    Ok(())
}
