//! What a commit wants of the area: that nothing is noted as reached, and each PID is below the words that the vault uses.
ghost use Rattle.std.specs.Prelude.{◌≡◌, IfErr, OnErr, OnOk};
ghost use Rattle.machine_core.specs.swizzle.Heap.{with_none_reached, Stands as AllStand};
ghost use Rattle.new_pids.specs.Giving.{AreBelow};
ghost use Rattle.machine_commits.specs.Committing.{FailsBy};

use machine_core::Machine;
use machine_core::obj_layout::vault::{Vault, VaultFault};
use machine_core::swizzle::fault::SwizzleFault;

/// Notes nothing as reached any more. Damaged where a PID isn't below the words that are used.
pub fn make_ready<V: Vault>(m: &mut Machine, vault: &V) -> Result<(), SwizzleFault>
    ensures cleared { m.new ≡ record m.old { objects = with_none_reached m.old.objects } }
    ensures stands { AllStand m.old.objects m.new.objects }
    ensures below { OnOk result (AreBelow m.new.objects (V.used_words vault.now)) }
    ensures damaged { OnErr result (AreBelow m.new.objects (V.used_words vault.now) → ⊥) }
    ensures fails { IfErr result (FailsBy (V.outside vault.now) (V.outside vault.now) (V.access vault.now)) }
{
    let area = m.objects.area();
    area.clear_reached();
    let greatest = area.greatest_pid();
    let used = vault.used();
    if greatest < used {
        return Ok(());
    }
    Err(SwizzleFault::Vault(VaultFault::Damaged {
        at: greatest,
        found: greatest,
        wanted: used,
    }))
}
