//! Runs of units beside a store, in a scope that it holds, and what they return as a text.

ghost use Rattle.std.specs.Prelude.{◌≡◌, true};
ghost use Rattle.machine_run.specs.Loaded.{IsRoomy};

use crate::came::Came;
use crate::outcome::put_told;
use crate::settings::Settings;
use machine_run::Machine;
use machine_run::load::{load, machine};
use machine_run::run::run;
use machine_run::vault_output::Output;
use memory_vault::memory::MemoryVault;
use ps_base::code_unit::CodeUnit;
use std::alloc::{AllocError, Global};
use stored_scopes::{enter, vault_of};
use unit_rows::Store;
use unit_rows::table_rows::Buffer;

/// A unit with its input, and the scope of a store that it is run in.
#[derive(Clone, Copy)]
pub struct Stored<'a> {
    pub unit: &'a CodeUnit,
    pub input: &'a [u8],
    pub settings: Settings,
    pub store: &'a Store,
    /// The scope, by its PID.
    pub scope: u64,
}

// What a run returned, how many calls the store had, and what was output or was pending.
#[derive(Drop)]
struct Outcome {
    came: Came,
    calls: u64,
    told: Vec<u8>,
}

impl Stored<'_> {
    /// Writes what it returns and outputs.
    pub fn put_run(self, out: &mut Buffer) {
        match self.outcome(out.alloc(), None) {
            Ok(outcome) => {
                outcome.came.put(out);
                put_told(out, None, &outcome.told);
            }
            Err(_) => out.fail(),
        }
    }

    /// Writes what it returns, then a letter for each call of the store, what it returns with that call failing, and what it outputs where none fails.
    pub fn put_fetches(self, out: &mut Buffer) {
        match self.outcome(out.alloc(), None) {
            Ok(outcome) => {
                outcome.came.put(out);
                out.put("\n");
                for call in 0..outcome.calls {
                    self.put_failing(out, call);
                }
                put_told(out, None, &outcome.told);
            }
            Err(_) => out.fail(),
        }
    }

    // Writes the letter of what it returns where this call fails.
    fn put_failing(self, out: &mut Buffer, call: u64) {
        match self.outcome(out.alloc(), Some(call)) {
            Ok(outcome) => out.put(outcome.came.letter()),
            Err(_) => out.fail(),
        }
    }

    // What it returns, over a new machine, where this call of the store fails and each after it.
    fn outcome(self, alloc: Global, failing: Option<u64>) -> Result<Outcome, AllocError> {
        let mut vault = vault_of(alloc, &self.store.words)?;
        if let Some(call) = failing {
            vault.fail_from(call);
        }
        let mut output = Output::new(alloc)?;
        let mut machine = machine(alloc, self.settings.words.clamp(5, 1 << 25))?;
        let input = Vec::from_slice(alloc, self.input)?;
        let came = self.came(&mut machine, &mut vault, &mut output, input);
        let mut told = Vec::from_slice(alloc, vault.told())?;
        told.extend_from_slice(output.owed())?;
        let calls = vault.calls();
        Ok(Outcome { came, calls, told })
    }

    // The same of this machine beside this vault.
    fn came(
        self,
        machine: &mut Machine,
        vault: &mut MemoryVault,
        output: &mut Output,
        input: Vec<u8>,
    ) -> Came
        requires roomy { IsRoomy machine.old }
        requires alive { vault.old.alive ≡ true }
    {
        if let Err(fault) = load(machine, vault, self.unit, self.settings.turns, input) {
            return Came::of_fault(fault);
        }
        match enter(machine, vault, self.scope) {
            Ok(()) => Came::of_run(run(machine, vault, output)),
            Err(fault) => Came::of_fault(fault),
        }
    }
}
