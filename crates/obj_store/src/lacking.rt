//! What a volume answers, told as a vault tells it.

ghost use Rattle.std.specs.Prelude.{◌≡◌};
ghost use Rattle.obj_store.specs.Lacking.{told_fault};

use obj_layout::vault::VaultFault;
use paged_volume::VolumeFault;

/// Why a volume refused, as a vault tells it.
pub fn vault_fault(fault: VolumeFault) -> VaultFault
    ensures { result ≡ told_fault fault }
{
    match fault {
        VolumeFault::Device => VaultFault::Device,
        VolumeFault::Full {
            held,
            wanted,
            pages,
        } => VaultFault::NoPages {
            held,
            wanted,
            pages,
        },
    }
}
