//! The scope of the body that runs.
ghost use Rattle.std.specs.Prelude.{◌≡◌, List, IfSome};
ghost use Rattle.joint_ops.specs.obj_layout.declared.reference.Reference.{Reference};
ghost use Rattle.joint_ops.specs.swizzle.Heap.{IsHeld};
ghost use Rattle.ps_stepping.specs.Config.{Config};
ghost use Rattle.joint_ops.specs.World.{DenotesScopeIn};
ghost use Rattle.machine_core.specs.Calling.{Enters};
ghost use Rattle.machine_core.specs.Holding.{HeldBy, IsSound};
ghost use Rattle.machine_core.specs.Naming.{NamesObjects};

use crate::machine::Machine;
use crate::stacks::{object, word};
use joint_ops::obj_layout::vault::Vault;

/// The current scope, or none.
#[inline(always)]
pub fn scope<V: Vault>(m: &Machine) -> Option<u32>
    ensures held { NamesObjects m.now → IfSome result (IsHeld m.now.objects) }
    ensures denotes { (v : V) (names : List Reference) (c : Config) → HeldBy (V.outside v) names m.now c → DenotesScopeIn m.now.objects (V.outside v) names result c.scope }
{
    object(m.scope)
}

/// Makes a scope the current one, or none.
#[inline(always)]
pub fn set_scope<V: Vault>(m: &mut Machine, to: Option<u32>)
    requires { IsSound m.old }
    ensures sound { IsSound m.new }
    ensures objects { m.new.objects ≡ m.old.objects }
    ensures values { m.new.values ≡ m.old.values }
    ensures names { NamesObjects m.old → IfSome to (IsHeld m.old.objects) → NamesObjects m.new }
    ensures enters { (v : V) → Enters (V.outside v) to m.old m.new }
{
    m.objects.sound();
    m.scope = word(to);
}
