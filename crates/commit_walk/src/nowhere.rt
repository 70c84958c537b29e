//! A vault without objects. Over it a touch finds what lies in the area, and fetches nothing.
ghost use Rattle.std.specs.Prelude.{◌≡◌, true, false};
ghost use Rattle.swizzle.specs.obj_layout.declared.vault.VaultFault.TheVariants.{Damaged};

use swizzle::obj_layout::vault::{Vault, VaultFault};

/// It has word 0 alone, and room for no more. Each object that is asked of it is damaged, since no PID is below its one used word; after that it isn't
/// alive.
#[derive(Drop)]
pub struct Nowhere {
    alive: bool,
}

impl Nowhere {
    /// One that is alive.
    pub fn new() -> Nowhere
        ensures { result.alive ≡ true }
    {
        Nowhere { alive: true }
    }

    // A PID at which there is no object: there is but word 0.
    fn refuse(&mut self, pid: u64) -> VaultFault
        ensures dead { self.new.alive ≡ false }
        ensures damaged { result ≡ Damaged pid pid 1 }
    {
        self.alive = false;
        VaultFault::Damaged {
            at: pid,
            found: pid,
            wanted: 1,
        }
    }
}

impl Vault for Nowhere {
    ghost use Rattle.std.proofs.Common.{arith, sym, subst, refl, ◌∙◌};
    ghost use Rattle.swizzle.specs.obj_layout.Stored.{IsSpace};
    ghost use Rattle.swizzle.specs.obj_layout.Storing.{unshared};
    ghost use Rattle.commit_walk.specs.Nowhere.{outside};

    ghost outside = { λ vault. outside };

    ghost alive = { λ vault. vault.alive ≡ true };

    // Word 0 alone, which is no object's.
    ghost used_words = { λ vault. 1 };

    ghost most_words = { λ vault. 0 };

    ghost directory_at = { λ vault. 0 };

    ghost Lent = { Unit {0} };

    ghost access = { λ vault. unshared false };

    fn length(&mut self, pid: u64) -> Result<u32, VaultFault> {
        Err(self.refuse(pid))
    }

    fn fetch(&mut self, pid: u64, into: &mut [u64]) -> Result<(), VaultFault> {
        Err(self.refuse(pid))
    }

    fn append(&mut self, words: &[u64]) -> Result<u64, VaultFault> {
        self.alive = false;
        Err(VaultFault::Full {
            used: 1,
            wanted: words.len() as u64,
            capacity: 0,
        })
    }

    fn overwrite(&mut self, pid: u64, words: &[u64]) -> Result<(), VaultFault> {
        Err(self.refuse(pid))
    }

    fn settle(&mut self, directory: u64) -> Result<(), VaultFault> {
        Ok(())
    }

    fn put(&mut self, bytes: &[u8]) -> Result<(), VaultFault> {
        Ok(())
    }

    fn used(&self) -> u64 {
        1
    }

    fn capacity(&self) -> u64 {
        0
    }

    fn directory(&self) -> u64 {
        0
    }

    fn writable(&self) -> bool {
        true
    }

    fn is_alive(&self) -> bool {
        self.alive
    }

    ghost space = { λ vault space is. subst (IsSpace 1 0) (sym is) (record {
      wide = (omega arith, tt);
      long = refl;
      some = omega arith;
      small = omega arith;
      named = refl;
      below = omega arith;
      unfiled = refl;
    }) };

    ghost one = { λ vault a b is other. is ∙ sym other };

    ghost bounds = { λ vault. (omega arith, omega arith, omega arith) };
}
