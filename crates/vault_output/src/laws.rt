//! What is so of every run of writes and flushes, over any vault.

ghost use Rattle.std.specs.Prelude.{List, ◌++◌, ℕ, Ok, Result};
ghost use Rattle.obj_layout.specs.ps_outside.Outside.{Adds, TellsPrefix};
ghost use Rattle.obj_layout.specs.Storing.{Puts};
ghost use Rattle.obj_layout.specs.declared.vault.VaultFault.{VaultFault};
ghost use Rattle.vault_output.specs.Sending.{Sends};

use obj_layout::vault::Vault;

/// After an answered write what is output, and what is pending after it, are what was output before and all that was due.
pub fn what_is_told_and_owed_is_due<V: Vault>()
    ensures { (a b : V) (due owed bytes : List ℕ)
        → Sends {T = Unit {0}} (V.outside a) (V.outside b) due owed (Ok tt) → (V.outside b).told (V.outside b).clock bytes
        → Adds ((V.outside a).told (V.outside a).clock) due (bytes ++ owed) }
{}

/// At each moment of a write, whatever the answer, a prefix of what was due is output.
pub fn what_is_told_is_a_front<V: Vault>()
    ensures { (a b : V) (due owed : List ℕ) (result : Result (Unit {0}) VaultFault)
        → Sends (V.outside a) (V.outside b) due owed result → TellsPrefix (V.outside a) (V.outside b) due }
{}

/// A write after a write is one write of both, in order.
pub fn two_sends_are_one<V: Vault>()
    ensures { (a b c : V) (due owed more left : List ℕ) (result : Result (Unit {0}) VaultFault)
        → Sends {T = Unit {0}} (V.outside a) (V.outside b) due owed (Ok tt) → Sends (V.outside b) (V.outside c) (owed ++ more) left result
        → Sends (V.outside a) (V.outside c) (due ++ more) left result }
{}

/// A flush after a write puts all that was due, in order.
pub fn what_is_flushed_is_told<V: Vault>()
    ensures { (a b c : V) (due owed : List ℕ) (result : Result (Unit {0}) VaultFault)
        → Sends {T = Unit {0}} (V.outside a) (V.outside b) due owed (Ok tt) → Puts (V.outside b) (V.outside c) owed result
        → Puts (V.outside a) (V.outside c) due result }
{}
