ghost use Rattle.std.specs.Prelude.{◌≡◌, true, false};
ghost use Rattle.obj_layout.specs.declared.vault.VaultFault.TheVariants.{Damaged};
ghost use Rattle.no_store.specs.NoObjects.{outside_of, word_0, HoldsNothing};

use obj_layout::vault::{Vault, VaultFault};
use ps_port::Host;

/// A vault that holds no object and has room for none, over a host that takes what is output. Each object that is asked of it is damaged,
/// since no PID is below its one used word. After any fault it isn't alive.
#[derive(Drop)]
pub struct NoStore<H> {
    host: H,
    alive: bool,
}

impl<H: Host> NoStore<H> {
    /// A vault over this host, alive.
    pub fn new(host: H) -> NoStore<H>
        ensures host { result.host ≡ host }
        ensures alive { result.alive ≡ true }
    {
        NoStore { host, alive: true }
    }

    /// The host that takes what is output.
    pub fn host(&self) -> &H
        ensures { result.now ≡ self.now.host }
    {
        &self.host
    }

    /// Gives the host back, also after a fault.
    pub fn into_host(self) -> H
        ensures { result ≡ self.host }
    {
        self.host
    }

    /// A law: it holds no object.
    pub fn holds_nothing(&self)
        ensures { HoldsNothing (outside_of (H.outside self.now.host)) }
    {}

    /// A law: what a read gives is word 0 alone.
    pub fn holds_word_0(&self)
        ensures { (outside_of (H.outside self.now.host)).contents word_0 }
    {}

    // A PID at which there is no object: there is but word 0.
    fn refuse(&mut self, pid: u64) -> VaultFault
        ensures host { self.new.host ≡ self.old.host }
        ensures dead { self.new.alive ≡ false }
        ensures damaged { result ≡ Damaged pid pid 1 }
    {
        self.alive = false;
        VaultFault::Damaged {
            at: pid,
            found: pid,
            wanted: 1,
        }
    }
}

impl<H: Host> Vault for NoStore<H> {
    ghost use Rattle.std.proofs.Common.{◌∙◌, arith, refl, sym, subst};
    ghost use Rattle.no_store.specs.NoObjects.{outside_of};
    ghost use Rattle.obj_layout.specs.Stored.{IsSpace};
    ghost use Rattle.obj_layout.specs.Storing.{unshared};

    ghost outside = { λ vault. outside_of (H.outside vault.host) };

    ghost alive = { λ vault. vault.alive ≡ true };

    // Word 0 alone, which is no object's.
    ghost used_words = { λ vault. 1 };

    ghost most_words = { λ vault. 0 };

    ghost directory_at = { λ vault. 0 };

    ghost Lent = { Unit {0} };

    ghost access = { λ vault. unshared false };

    fn length(&mut self, pid: u64) -> Result<u32, VaultFault> {
        Err(self.refuse(pid))
    }

    fn fetch(&mut self, pid: u64, into: &mut [u64]) -> Result<(), VaultFault> {
        Err(self.refuse(pid))
    }

    fn append(&mut self, words: &[u64]) -> Result<u64, VaultFault> {
        self.alive = false;
        Err(VaultFault::Full {
            used: 1,
            wanted: words.len() as u64,
            capacity: 0,
        })
    }

    fn overwrite(&mut self, pid: u64, words: &[u64]) -> Result<(), VaultFault> {
        Err(self.refuse(pid))
    }

    fn settle(&mut self, directory: u64) -> Result<(), VaultFault> {
        Ok(())
    }

    fn put(&mut self, bytes: &[u8]) -> Result<(), VaultFault> {
        match self.host.put(bytes) {
            Ok(()) => Ok(()),
            Err(_) => {
                self.alive = false;
                Err(VaultFault::Output)
            }
        }
    }

    fn used(&self) -> u64 {
        1
    }

    fn capacity(&self) -> u64 {
        0
    }

    fn directory(&self) -> u64 {
        0
    }

    fn writable(&self) -> bool {
        true
    }

    fn is_alive(&self) -> bool {
        self.alive
    }

    ghost space = { λ vault space is. subst (IsSpace 1 0) (sym is) (record {
      wide = (omega arith, tt);
      long = refl;
      some = omega arith;
      small = omega arith;
      named = refl;
      below = omega arith;
      unfiled = refl;
    }) };

    ghost one = { λ vault a b is other. is ∙ sym other };

    ghost bounds = { λ vault. (omega arith, omega arith, omega arith) };
}
