ghost use Rattle.std.specs.Prelude.{◌≡◌, ◌≤◌, false};

use obj_layout::vault::{Vault, VaultFault};

/// A vault that tells nothing: it answers each object as damaged, has room for none, and can be told anything. It is alive until an object is asked
/// for or given.
#[derive(Drop)]
pub struct SilentVault {
    /// How many objects were asked for or given.
    pub asked: u64,
}

impl SilentVault {
    // Counts an object that is asked for or given.
    fn ask(&mut self)
        ensures { 1 ≤ self.new.asked }
    {
        self.asked = self.asked.saturating_add(1);
    }
}

impl Vault for SilentVault {
    ghost use Rattle.std.proofs.Common.{arith};
    ghost use Rattle.memory_vault.specs.Silent.{nothing_told};
    ghost use Rattle.obj_layout.specs.Storing.{unshared};

    ghost outside = { λ vault. nothing_told };

    ghost alive = { λ vault. vault.asked ≡ 0 };

    ghost used_words = { λ vault. 1 };

    ghost most_words = { λ vault. 1 };

    ghost directory_at = { λ vault. 0 };

    ghost Lent = { Unit {0} };

    ghost access = { λ vault. unshared false };

    fn length(&mut self, pid: u64) -> Result<u32, VaultFault> {
        self.ask();
        Err(VaultFault::Damaged {
            at: pid,
            found: pid,
            wanted: 1,
        })
    }

    fn fetch(&mut self, pid: u64, into: &mut [u64]) -> Result<(), VaultFault> {
        self.ask();
        Err(VaultFault::Damaged {
            at: pid,
            found: pid,
            wanted: 1,
        })
    }

    fn append(&mut self, words: &[u64]) -> Result<u64, VaultFault> {
        self.ask();
        Err(VaultFault::Full {
            used: 1,
            wanted: words.len() as u64,
            capacity: 1,
        })
    }

    fn overwrite(&mut self, pid: u64, words: &[u64]) -> Result<(), VaultFault> {
        self.ask();
        Err(VaultFault::Damaged {
            at: pid,
            found: pid,
            wanted: 1,
        })
    }

    fn settle(&mut self, directory: u64) -> Result<(), VaultFault> {
        Ok(())
    }

    fn put(&mut self, bytes: &[u8]) -> Result<(), VaultFault> {
        Ok(())
    }

    fn used(&self) -> u64 {
        1
    }

    fn capacity(&self) -> u64 {
        1
    }

    fn directory(&self) -> u64 {
        0
    }

    fn writable(&self) -> bool {
        true
    }

    fn is_alive(&self) -> bool {
        self.asked == 0
    }

    ghost space = { λ vault space is. absurd is };

    ghost one = { λ vault a b is other. absurd is };

    ghost bounds = { λ vault. (omega arith, omega arith, omega arith) };
}
