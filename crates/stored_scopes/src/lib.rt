//! A store in memory, and a machine that begins in a scope of it: what tests and measurements of units beside a store share.
#![tactic(auto)]

ghost use Rattle.std.specs.Prelude.{◌≡◌, true, IfOk, OnOk};
ghost use Rattle.machine_run.specs.machine_core.Holding.{IsSound};
ghost use Rattle.machine_run.specs.machine_core.Naming.{NamesObjects};

use machine_run::Machine;
use machine_run::swizzle::fault::SwizzleFault;
use memory_vault::memory::MemoryVault;
use std::alloc::{AllocError, Global};

/// The words, and the bytes of output, that a store has room for.
pub const ROOM: u64 = 1 << 20;

/// The greatest PID.
pub const MOST_PID: u64 = (1 << 63) - 1;

/// A vault that holds these words from word 0 on, without a directory; an empty one where there are none, or more than `ROOM`.
pub fn vault_of(alloc: Global, words: &[u64]) -> Result<MemoryVault, AllocError>
    ensures { IfOk result (λ vault. vault.alive ≡ true) }
{
    if words.is_empty() || words.len() as u64 > ROOM {
        return MemoryVault::new(alloc, ROOM);
    }
    MemoryVault::of_words(alloc, words, 0, ROOM)
}

/// The object of this PID, which should be a scope, becomes the current scope of a machine that was loaded. The fault is that of fetching it; the machine is of no
/// use then until a unit is loaded.
pub fn enter(machine: &mut Machine, vault: &mut MemoryVault, pid: u64) -> Result<(), SwizzleFault>
    requires sound { IsSound machine.old }
    requires names { NamesObjects machine.old }
    requires alive { vault.old.alive ≡ true }
    ensures sound { OnOk result (IsSound machine.new) }
    ensures names { OnOk result (NamesObjects machine.new) }
    ensures alive { OnOk result (vault.new.alive ≡ true) }
{
    match machine.objects.fetch(vault, pid.clamp(1, MOST_PID)) {
        Ok(scope) => {
            machine.scope = scope;
            Ok(())
        }
        Err(fault) => Err(fault),
    }
}
