//! Objects by their PIDs.
ghost use Rattle.std.specs.Prelude.{◌≡◌, ◌<◌, ◌≤◌, ◌^◌, List, IfErr, IfOk, OnOk};
ghost use Rattle.joint_ops.specs.obj_layout.declared.reference.Reference as reference;
ghost use Rattle.joint_ops.specs.obj_layout.declared.reference.Reference.TheVariants.{Pid};
ghost use Rattle.joint_ops.specs.obj_layout.Storing.{SameNumbers};
ghost use Rattle.joint_ops.specs.swizzle.Fetched.{IsLocal};
ghost use Rattle.joint_ops.specs.swizzle.Heap.{IsHeld, header_at};
ghost use Rattle.joint_ops.specs.swizzle.Reading.{LeavesOutside};
ghost use Rattle.joint_ops.specs.swizzle.Touch.{Keeps, IsTouchFault};
ghost use Rattle.joint_ops.specs.ps_heap.Objects as meaning;
ghost use Rattle.joint_ops.specs.World.{IsWorld, Carried, FailsAsReading};
ghost use Rattle.objects.specs.Known.{IsRight};

use super::Objects;
use crate::known::Known;
use joint_ops::obj_layout::vault::Vault;
use joint_ops::swizzle::fault::SwizzleFault;
use joint_ops::swizzle::swizzle::Swizzle;

impl Objects {
    /// The PID of an object, 0 for one that has none yet.
    #[inline]
    pub fn pid_of(&self, object: u32) -> u64
        requires { IsHeld self.now object }
        ensures { result ≡ (header_at self.now object).pid }
    {
        self.sw.pid(object)
    }

    /// The object of a PID, which is fetched where it isn't in the area. The fault is that of the first test that it doesn't pass, or there is no room
    /// for it.
    pub fn fetch<V: Vault>(&mut self, vault: &mut V, pid: u64) -> Result<u32, SwizzleFault>
        requires alive { V.alive vault.old }
        requires low { 1 ≤ pid }
        requires high { pid < 2 ^ 63 }
        ensures place { IfOk result (IsLocal self.new pid) }
        ensures held { IfOk result (IsHeld self.new) }
        ensures world { OnOk result ((of : meaning.Heap) (names : List reference.Reference) → IsWorld self.old (V.outside vault.old) of names
            → Carried self.old self.new (V.outside vault.old) (V.outside vault.new) of names) }
        ensures keeps { OnOk result (Keeps self.old self.new) }
        ensures fault { IfErr result (IsTouchFault self.old (V.outside vault.old) (Pid pid)) }
        ensures fails { FailsAsReading (V.outside vault.old) (V.outside vault.new) result }
        ensures leaves { LeavesOutside (V.outside vault.old) (V.outside vault.new) }
        ensures numbers { SameNumbers V.used_words V.directory_at V.most_words V.access vault.old vault.new }
        ensures alive { OnOk result (V.alive vault.new) }
    {
        fetch_pid(&mut self.sw, &mut self.known, vault, pid)
    }
}

// Fetches the object of a PID, with what was looked up beside the area.
fn fetch_pid<V: Vault>(
    sw: &mut Swizzle,
    known: &mut Known,
    vault: &mut V,
    pid: u64,
) -> Result<u32, SwizzleFault>
    requires alive { V.alive vault.old }
    requires low { 1 ≤ pid }
    requires high { pid < 2 ^ 63 }
    requires right { IsRight sw.old known.old }
    ensures place { IfOk result (IsLocal sw.new pid) }
    ensures held { IfOk result (IsHeld sw.new) }
    ensures world { OnOk result ((of : meaning.Heap) (names : List reference.Reference) → IsWorld sw.old (V.outside vault.old) of names
        → Carried sw.old sw.new (V.outside vault.old) (V.outside vault.new) of names) }
    ensures keeps { OnOk result (Keeps sw.old sw.new) }
    ensures fault { IfErr result (IsTouchFault sw.old (V.outside vault.old) (Pid pid)) }
    ensures fails { FailsAsReading (V.outside vault.old) (V.outside vault.new) result }
    ensures leaves { LeavesOutside (V.outside vault.old) (V.outside vault.new) }
    ensures numbers { SameNumbers V.used_words V.directory_at V.most_words V.access vault.old vault.new }
    ensures alive { OnOk result (V.alive vault.new) }
    ensures right { IsRight sw.new known.new }
{
    match sw.touch_pid(vault, pid) {
        Ok(at) => Ok(at),
        Err(fault) => {
            known.clear();
            Err(fault)
        }
    }
}
