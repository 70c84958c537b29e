ghost use Rattle.std.specs.Prelude.{◌≡◌, ◌+◌, ◌≤◌, [], ◌++◌, length, replicate, IfErr, IfOk, IsOk, OnOk};
ghost use Rattle.obj_layout.specs.Storing.{Puts, SameNumbers};
ghost use Rattle.obj_layout.specs.declared.vault.VaultFault.TheVariants as vault_fault;
ghost use Rattle.vault_output.specs.Sending.{Sends, left_of};

use obj_layout::vault::{Vault, VaultFault};
use std::alloc::{AllocError, Global};
use std::marker::Model;

/// How many bytes an output holds back at most, and how many go on in a full piece.
pub const BUFFER_BYTES: usize = 65_536;

/// The output of a run. What is written is kept until more comes than the buffer holds, and goes on to a vault in pieces of 65,536 bytes.
/// Contracts see the bytes that are pending: those that were written and not put to the vault yet. It takes all its memory when it is made.
#[derive(Drop)]
pub struct Output {
    bytes: Vec<u8>,
}

impl Model for Output {
    ghost use Rattle.std.specs.Prelude.{ℕ, List};

    ghost Value = { List ℕ };

    ghost use Rattle.vault_output.specs.Buffered.{owed_of, IsBuffer};

    ghost view = { owed_of };

    ghost invariant = { IsBuffer };
}

impl Output {
    /// An output that has nothing pending.
    pub fn new(alloc: Global) -> Result<Output, AllocError>
        ensures { IfOk result (λ output. output ≡ []) }
    {
        Ok(Output {
            bytes: Vec::with_capacity(alloc, BUFFER_BYTES)?,
        })
    }

    /// The bytes that are pending.
    pub fn owed(&self) -> &[u8]
        ensures owed { result.now ≡ self.now }
        ensures few { length self.now ≤ BUFFER_BYTES }
    {
        &self.bytes
    }

    /// Writes these bytes after those that are pending. Full pieces of them go on to the vault once more is due than the buffer holds. After
    /// the vault's first fault no more is put to it, a prefix of what was due was output, and nothing is pending.
    #[inline]
    pub fn write<V: Vault>(&mut self, vault: &mut V, bytes: &[u8]) -> Result<(), VaultFault>
        requires alive { V.alive vault.old }
        ensures sends { Sends (V.outside vault.old) (V.outside vault.new) (self.old ++ bytes.now) self.new result }
        ensures left { OnOk result (length self.new ≡ left_of (length self.old + length bytes.now)) }
        ensures fits { length self.old + length bytes.now ≤ BUFFER_BYTES → IsOk result × (vault.new ≡ vault.old) }
        ensures fault { IfErr result (λ fault. fault ≡ vault_fault.Output) }
        ensures numbers { SameNumbers V.used_words V.directory_at V.most_words V.access vault.old vault.new }
        ensures alive { OnOk result (V.alive vault.new) }
    {
        if bytes.len() <= self.room() {
            self.keep(bytes);
            return Ok(());
        }
        self.write_pieces(vault, bytes)
    }

    /// Writes so many spaces, as `write` does.
    #[inline]
    pub fn blanks<V: Vault>(&mut self, vault: &mut V, count: u32) -> Result<(), VaultFault>
        requires alive { V.alive vault.old }
        ensures sends { Sends (V.outside vault.old) (V.outside vault.new) (self.old ++ replicate count 32) self.new result }
        ensures left { OnOk result (length self.new ≡ left_of (length self.old + count)) }
        ensures fits { length self.old + count ≤ BUFFER_BYTES → IsOk result × (vault.new ≡ vault.old) }
        ensures fault { IfErr result (λ fault. fault ≡ vault_fault.Output) }
        ensures numbers { SameNumbers V.used_words V.directory_at V.most_words V.access vault.old vault.new }
        ensures alive { OnOk result (V.alive vault.new) }
    {
        let count = count as usize;
        if count <= self.room() {
            self.fill(count);
            return Ok(());
        }
        self.fill_pieces(vault, count)
    }

    // Writes these bytes, as many as they are.
    fn write_pieces<V: Vault>(&mut self, vault: &mut V, bytes: &[u8]) -> Result<(), VaultFault>
        requires alive { V.alive vault.old }
        ensures sends { Sends (V.outside vault.old) (V.outside vault.new) (self.old ++ bytes.now) self.new result }
        ensures left { OnOk result (length self.new ≡ left_of (length self.old + length bytes.now)) }
        ensures fault { IfErr result (λ fault. fault ≡ vault_fault.Output) }
        ensures numbers { SameNumbers V.used_words V.directory_at V.most_words V.access vault.old vault.new }
        ensures alive { OnOk result (V.alive vault.new) }
    {
        let mut rest = bytes;
        while rest.len() > self.room() {
            let (front, back) = rest.split_at(self.room());
            self.keep(front);
            if let Err(fault) = self.flush(vault) {
                return Err(fault);
            }
            rest = back;
        }
        self.keep(rest);
        Ok(())
    }

    // Writes so many spaces, as many as they are.
    fn fill_pieces<V: Vault>(&mut self, vault: &mut V, count: usize) -> Result<(), VaultFault>
        requires alive { V.alive vault.old }
        ensures sends { Sends (V.outside vault.old) (V.outside vault.new) (self.old ++ replicate count 32) self.new result }
        ensures left { OnOk result (length self.new ≡ left_of (length self.old + count)) }
        ensures fault { IfErr result (λ fault. fault ≡ vault_fault.Output) }
        ensures numbers { SameNumbers V.used_words V.directory_at V.most_words V.access vault.old vault.new }
        ensures alive { OnOk result (V.alive vault.new) }
    {
        let mut rest = count;
        while rest > self.room() {
            let some = self.room();
            self.fill(some);
            if let Err(fault) = self.flush(vault) {
                return Err(fault);
            }
            rest -= some;
        }
        self.fill(rest);
        Ok(())
    }

    /// Puts all that is pending to the vault. Nothing is pending after it, whatever the vault answers. Where nothing is pending the vault isn't
    /// called.
    pub fn flush<V: Vault>(&mut self, vault: &mut V) -> Result<(), VaultFault>
        requires alive { V.alive vault.old }
        ensures puts { Puts (V.outside vault.old) (V.outside vault.new) self.old result }
        ensures emptied { self.new ≡ [] }
        ensures idle { self.old ≡ [] → IsOk result × (vault.new ≡ vault.old) }
        ensures fault { IfErr result (λ fault. fault ≡ vault_fault.Output) }
        ensures numbers { SameNumbers V.used_words V.directory_at V.most_words V.access vault.old vault.new }
        ensures alive { OnOk result (V.alive vault.new) }
    {
        if self.bytes.is_empty() {
            return Ok(());
        }
        let answer = vault.put(&self.bytes);
        self.bytes.clear();
        answer
    }

    /// Lets go what is pending: it will not be output.
    pub fn clear(&mut self)
        ensures { self.new ≡ [] }
    {
        self.bytes.clear();
    }

    // How many bytes more the buffer holds.
    #[inline]
    fn room(&self) -> usize
        ensures room { result + length self.now ≡ 65536 }
    {
        BUFFER_BYTES - self.bytes.len()
    }

    // Owes these bytes too.
    #[inline]
    fn keep(&mut self, bytes: &[u8])
        requires { length self.old + length bytes.now ≤ 65536 }
        ensures { self.new ≡ self.old ++ bytes.now }
    {
        let Ok(()) = self.bytes.extend_from_slice(bytes) else {
            unreachable!()
        };
    }

    // Owes so many spaces too.
    #[inline]
    fn fill(&mut self, count: usize)
        requires { length self.old + count ≤ 65536 }
        ensures { self.new ≡ self.old ++ replicate count 32 }
    {
        let end = self.bytes.len() + count;
        let Ok(()) = self.bytes.resize(end, b' ') else {
            unreachable!()
        };
    }
}
