//! The directory of a vault, in the area.
ghost use Rattle.std.specs.Prelude.{◌≡◌, List, None, IfOk, IfErr, IfSome, OnOk, MatchResult};
ghost use Rattle.joint_ops.specs.obj_layout.Storing.{SameNumbers};
ghost use Rattle.joint_ops.specs.obj_layout.declared.reference.Reference.{Reference};
ghost use Rattle.joint_ops.specs.Seeing.{Gains};
ghost use Rattle.joint_ops.specs.World.{seen, BreaksOff};
ghost use Rattle.joint_ops.specs.heap_meaning.Paired.{paired};
ghost use Rattle.joint_ops.specs.swizzle.Reading.{FailsReading};
ghost use Rattle.joint_ops.specs.ps_heap.Databases.{Directory};
ghost use Rattle.db_dir.specs.Directories.{FailsLoading, IsShaped, IsDirectoryAt, IsDirectoryUnder};
ghost use Rattle.db_dir.specs.Entries.{ReadsSome};

use crate::shape::misfit;
use joint_ops::heap_places::places::damaged;
use joint_ops::obj_layout::vault::{Vault, VaultFault};
use joint_ops::swizzle::fault::SwizzleFault;
use joint_ops::swizzle::swizzle::Swizzle;

// No PID comes to this number.
const PID_BOUND: u64 = 1 << 63;

/// The directory of the vault; None exactly where it has none. It is fetched where it isn't in the area, but for what it refers to. Damaged, at its PID, where that is
/// none, where the vault or a touch finds it so, and where it hasn't the shape of a directory of 1 to 256 databases.
pub fn load_directory<V: Vault>(
    sw: &mut Swizzle,
    vault: &mut V,
) -> Result<Option<u32>, SwizzleFault>
    requires alive { V.alive vault.old }
    ensures loaded { (databases : Directory) (row : List Reference) → IsDirectoryUnder (seen sw.old (V.outside vault.old)) (paired row) (V.directory_at vault.old) databases
        → MatchResult result (λ at. IsDirectoryAt sw.new (seen sw.new (V.outside vault.new)) (paired row) at databases × Gains sw.old sw.new (V.outside vault.old) (V.outside vault.new)) (BreaksOff sw.old sw.new (V.outside vault.old) (V.outside vault.new)) }
    ensures shaped { IfOk result (λ at. IfSome at (IsShaped sw.new)) }
    ensures none { IfOk result (λ at. (at ≡ None → V.directory_at vault.old ≡ 0) × (V.directory_at vault.old ≡ 0 → at ≡ None)) }
    ensures reads { OnOk result (ReadsSome sw.old sw.new (V.outside vault.old) (V.outside vault.new)) }
    ensures damaged { IfErr result (FailsLoading sw.old sw.new (V.outside vault.old) (V.directory_at vault.old)) }
    ensures fails { IfErr result (FailsReading (V.outside vault.old) (V.outside vault.new)) }
    ensures numbers { SameNumbers V.used_words V.directory_at V.most_words V.access vault.old vault.new }
    ensures alive { OnOk result (V.alive vault.new) }
{
    sw.sound();
    let pid = vault.directory();
    if pid == 0 {
        return Ok(None);
    }
    if pid >= PID_BOUND {
        return Err(SwizzleFault::Vault(VaultFault::Damaged {
            at: pid,
            found: pid,
            wanted: PID_BOUND,
        }));
    }
    let touched = sw.touch_pid(vault, pid);
    sw.sound();
    match touched {
        Ok(at) => match misfit(sw, at) {
            Some(misfit) => Err(damaged(sw, at, misfit.found, misfit.wanted)),
            None => Ok(Some(at)),
        },
        Err(fault) => Err(fault),
    }
}
