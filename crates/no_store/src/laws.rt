//! What is output by a vault without objects is output by its host.

ghost use Rattle.std.specs.Prelude.{ℕ, List, Ok, Result};
ghost use Rattle.obj_layout.specs.ps_outside.Outside.{TellsPrefix, LeavesSame};
ghost use Rattle.ps_port.specs.Telling.{TellsAll};
ghost use Rattle.obj_layout.specs.Storing.{Puts};
ghost use Rattle.obj_layout.specs.declared.vault.VaultFault.{VaultFault};
ghost use Rattle.no_store.specs.NoObjects.{outside_of};

use ps_port::Host;

/// Bytes that were put to the vault, by one call or by several, were output by the host: a prefix of them at each moment, and all of them
/// after an answer; and then no fault of the host was counted.
pub fn what_is_put_is_told<H: Host>()
    ensures front { (a b : H) (bytes : List ℕ) (result : Result (Unit {0}) VaultFault)
        → Puts (outside_of (H.outside a)) (outside_of (H.outside b)) bytes result
        → TellsPrefix (H.outside a) (H.outside b) bytes }
    ensures all { (a b : H) (bytes : List ℕ)
        → Puts {T = Unit {0}} (outside_of (H.outside a)) (outside_of (H.outside b)) bytes (Ok tt)
        → TellsAll (H.outside a) (H.outside b) bytes }
{}

/// Whatever leaves what a crash may leave of the vault leaves what it may leave of the host's device.
pub fn what_is_left_of_the_device<H: Host>()
    ensures { (a b : H) → LeavesSame (outside_of (H.outside a)) (outside_of (H.outside b)) → LeavesSame (H.outside a) (H.outside b) }
{}
