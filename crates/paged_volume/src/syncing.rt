//! A sync, and a write that is synced.

ghost use Rattle.std.specs.Prelude.{◌≡◌, ℕ, ◌+◌, ◌≤◌, List, length, OnOk};
ghost use Rattle.ps_port.specs.ps_outside.Outside.{After, Leaves, LeavesSame, SameContents, IsDeviceCall};
ghost use Rattle.ps_port.specs.Disk.{Torn, Written};
ghost use Rattle.volume_parts.specs.Calls.{Works, StaysHeld};

use ps_port::{Host, HostFailed};

/// Syncs, so that a crash leaves only what a read gives.
pub fn sync<H: Host>(host: &mut H) -> Result<(), HostFailed>
    ensures durable { OnOk result ((bytes : List ℕ) → (H.outside host.new).images (H.outside host.new).clock bytes → (H.outside host.new).contents bytes) }
    ensures contents { SameContents (H.outside host.old) (H.outside host.new) }
    ensures images { LeavesSame (H.outside host.old) (H.outside host.new) }
    ensures call { IsDeviceCall (H.outside host.old) (H.outside host.new) result }
{
    host.sync()
}

/// Writes a range and syncs.
#[tactic(auto, using(crate::proofs::Synced::written_durable, crate::proofs::Synced::written_stays))]
pub fn write_synced<H: Host>(host: &mut H, at: u64, from: &[u8]) -> Result<(), HostFailed>
    requires { (bytes : List ℕ) → (H.outside host.old).contents bytes → at ≤ length bytes }
    ensures images { Leaves (H.outside host.old) (H.outside host.new) (After ((H.outside host.old).images (H.outside host.old).clock) (Torn at (length from.now))) }
    ensures durable { OnOk result ((image : List ℕ) → (H.outside host.new).images (H.outside host.new).clock image → After ((H.outside host.old).images (H.outside host.old).clock) (Written at from.now) image) }
    ensures works { Works (H.outside host.old) (H.outside host.new) result }
    ensures calls { (H.outside host.new).device_calls ≤ (H.outside host.old).device_calls + 2 }
    ensures stays { OnOk result (StaysHeld (H.outside host.old) (H.outside host.new)) }
{
    host.write_at(at, from)?;
    sync(host)
}
