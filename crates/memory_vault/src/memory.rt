ghost use Rattle.std.specs.Prelude.{◌≡◌, ◌<◌, ◌≤◌, ◌+◌, ◌^◌, ◌⊎◌, ◌∷◌, [], Some, Ok, Err, true, false, IfOk, IfErr, OnErr, length, if◌then◌else◌};
ghost use Rattle.obj_layout.specs.Stored.{damage_at, appended, overwritten, directed};
ghost use Rattle.obj_layout.specs.declared.vault.VaultFault.TheVariants.{Device, Full};
ghost use Rattle.memory_vault.specs.Memory.{fresh, fails_from, answered, with_space};
ghost use Rattle.memory_vault.specs.Kept.{IsKept};
ghost use Rattle.memory_vault.specs.Tested.{IsTested, IsDamageAt};

use crate::objects::{are_wide, copy_from, length_of, object_at, write_over};
use obj_layout::header::Header;
use obj_layout::vault::{Vault, VaultFault};
use std::alloc::{AllocError, Global};
use std::marker::Model;

/// A vault that lies in memory and tells what it holds, for tests. Its words may be any: no object of them is tested before a call needs it.
/// Of the outside it tells the one space that it holds, the bytes that were put and its counts; it doesn't tell what a crash would leave.
/// It takes all its memory when it is made.
pub struct MemoryVault {
    words: Vec<u64>,
    directory: u64,
    // How many words it can hold, and how many bytes can be put.
    room: u64,
    told: Vec<u8>,
    // The device calls, counted from 0, and the number of the first that fails.
    calls: u64,
    failing: Option<u64>,
    device_faults: u64,
    output_faults: u64,
    alive: bool,
    // Whether something was stored that isn't settled yet.
    staged: bool,
}

impl Drop for MemoryVault {
    fn drop(self) {
        let MemoryVault {
            words: _,
            directory: _,
            room: _,
            told: _,
            calls: _,
            failing: _,
            device_faults: _,
            output_faults: _,
            alive: _,
            staged: _,
        } = self;
    }
}

impl Model for MemoryVault {
    ghost use Rattle.memory_vault.specs.Memory.{Memory};

    ghost Value = { Memory };

    ghost use Rattle.memory_vault.specs.MemoryView.{memory_of, IsKeptIn};

    ghost view = { memory_of };

    ghost invariant = { IsKeptIn };
}

impl MemoryVault {
    /// An empty store: word 0 alone is used, and there is no directory. It has room for `capacity` words, and for as many bytes that are put.
    pub fn new(alloc: Global, capacity: u64) -> Result<MemoryVault, AllocError>
        requires some { 1 ≤ capacity }
        requires small { capacity < 2 ^ 30 }
        ensures { IfOk result (λ vault. vault ≡ fresh (0 ∷ []) 0 capacity) }
    {
        MemoryVault::of_words(alloc, &[0], 0, capacity)
    }

    /// A store that holds exactly these words, from word 0 on, and has this directory. It has room for `capacity` words, and for as many
    /// bytes that are put.
    pub fn of_words(
        alloc: Global,
        words: &[u64],
        directory: u64,
        capacity: u64,
    ) -> Result<MemoryVault, AllocError>
        requires below { directory < length words.now }
        requires within { length words.now ≤ capacity }
        requires small { capacity < 2 ^ 30 }
        ensures { IfOk result (λ vault. vault ≡ fresh words.now directory capacity) }
    {
        are_wide(words);
        let mut held = Vec::with_capacity(alloc, capacity as usize)?;
        held.extend_from_slice(words)?;
        let told = Vec::with_capacity(alloc, capacity as usize)?;
        Ok(MemoryVault {
            words: held,
            directory,
            room: capacity,
            told,
            calls: 0,
            failing: None,
            device_faults: 0,
            output_faults: 0,
            alive: true,
            staged: false,
        })
    }

    /// Lets the device calls fail from this number on; they are counted from 0, so that `fail_from(vault.calls())` lets the next one fail.
    pub fn fail_from(&mut self, call: u64)
        ensures { self.new ≡ record self.old { failing = Some call } }
    {
        self.failing = Some(call);
    }

    /// The words that it holds, from word 0 on.
    pub fn words(&self) -> &[u64]
        ensures { result.now ≡ self.now.space.words }
    {
        &self.words
    }

    /// How many device calls it has had: one for each call of `length`, `fetch`, `append`, `overwrite` and `settle`. It stands still at
    /// 2^64 - 1.
    pub fn calls(&self) -> u64
        ensures { result ≡ self.now.calls }
    {
        self.calls
    }

    /// The bytes that were put so far.
    pub fn told(&self) -> &[u8]
        ensures { result.now ≡ self.now.told }
    {
        &self.told
    }

    // A law: what it keeps is in order.
    fn sound(&self)
        ensures { IsKept self.now }
    {
        let _room = self.room;
    }

    // The next device call. Where it fails a fault is counted.
    fn call(&mut self) -> Result<(), VaultFault>
        ensures answer { result ≡ (if fails_from self.old.calls self.old.failing then Err Device else Ok tt) }
        ensures after { self.new ≡ answered result self.old }
        ensures counts { self.old.device_faults ≤ self.new.device_faults }
        ensures dead { OnErr result (self.new.alive ≡ false) }
    {
        let fails = fails_from(self.calls, self.failing);
        self.calls = self.calls.saturating_add(1);
        if fails {
            self.device_faults = self.device_faults.saturating_add(1);
            self.alive = false;
            return Err(VaultFault::Device);
        }
        Ok(())
    }

    // A device call for the object with this PID, and its tests.
    fn object(&mut self, pid: u64, wanted: Option<u64>) -> Result<Header, VaultFault>
        ensures tested { IfOk result (IsTested self.old.space.words pid wanted) }
        ensures fault { IfErr result (λ fault. (fault ≡ Device) ⊎ IsDamageAt pid (damage_at self.old.space.words pid wanted) fault) }
        ensures after { self.new ≡ answered result self.old }
        ensures counts { self.old.device_faults ≤ self.new.device_faults }
        ensures dead { OnErr result (self.new.alive ≡ false) }
    {
        self.call()?;
        match object_at(&self.words, pid, wanted) {
            Ok(header) => Ok(header),
            Err(fault) => {
                self.alive = false;
                Err(fault)
            }
        }
    }

    // A device call for so many words more. The number of used words, where they fit.
    fn place(&mut self, wanted: u64) -> Result<u64, VaultFault>
        ensures fits { IfOk result (λ used. (used ≡ length self.old.space.words) × (used + wanted ≤ self.old.room)) }
        ensures fault { IfErr result (λ fault. (fault ≡ Device) ⊎ ((fault ≡ Full (length self.old.space.words) wanted self.old.room)
            × (self.old.room < length self.old.space.words + wanted))) }
        ensures after { self.new ≡ answered result self.old }
        ensures counts { self.old.device_faults ≤ self.new.device_faults }
        ensures dead { OnErr result (self.new.alive ≡ false) }
    {
        self.call()?;
        let used = self.words.len() as u64;
        if wanted > self.room - used {
            self.alive = false;
            return Err(VaultFault::Full {
                used,
                wanted,
                capacity: self.room,
            });
        }
        Ok(used)
    }

    // Holds these words after its own.
    fn extend(&mut self, words: &[u64])
        requires { length self.old.space.words + length words.now ≤ self.old.room }
        ensures after { self.new ≡ with_space (appended words.now self.old.space) self.old }
        ensures kept { IsKept self.new }
    {
        are_wide(words);
        match self.words.extend_from_slice(words) {
            Ok(()) => {}
            Err(_) => unreachable!(),
        }
    }

    // Holds these words in place of its own from `at` on.
    fn replace(&mut self, at: u64, words: &[u64])
        requires { at + length words.now ≤ length self.old.space.words }
        ensures after { self.new ≡ with_space (overwritten at words.now self.old.space) self.old }
        ensures kept { IsKept self.new }
    {
        are_wide(words);
        write_over(&mut self.words, at as usize, words);
    }

    // Has this directory.
    fn direct(&mut self, directory: u64)
        requires { directory < length self.old.space.words }
        ensures after { self.new ≡ with_space (directed directory self.old.space) self.old }
        ensures kept { IsKept self.new }
    {
        self.directory = directory;
    }
}

impl Vault for MemoryVault {
    ghost use Rattle.std.proofs.Common.{arith, sym, ◌∙◌};
    ghost use Rattle.memory_vault.specs.Memory.{outside_of, used_of, most_of};
    ghost use Rattle.obj_layout.specs.Storing.{unshared};

    ghost outside = { outside_of };

    ghost alive = { λ vault. vault.alive ≡ true };

    ghost used_words = { used_of };

    ghost most_words = { most_of };

    ghost directory_at = { λ vault. vault.space.directory };

    ghost Lent = { Unit {0} };

    ghost access = { λ vault. unshared vault.staged };

    fn length(&mut self, pid: u64) -> Result<u32, VaultFault> {
        let header = self.object(pid, None)?;
        Ok(length_of(&header))
    }

    fn fetch(&mut self, pid: u64, into: &mut [u64]) -> Result<(), VaultFault> {
        let _header = self.object(pid, Some(into.len() as u64))?;
        copy_from(&self.words, pid as usize, into);
        Ok(())
    }

    fn append(&mut self, words: &[u64]) -> Result<u64, VaultFault> {
        self.sound();
        let used = self.place(words.len() as u64)?;
        self.extend(words);
        self.staged = true;
        Ok(used)
    }

    fn overwrite(&mut self, pid: u64, words: &[u64]) -> Result<(), VaultFault> {
        let _header = match self.object(pid, Some(words.len() as u64)) {
            Ok(header) => header,
            Err(fault) => return Err(fault),
        };
        self.sound();
        self.replace(pid, words);
        self.staged = true;
        Ok(())
    }

    fn settle(&mut self, directory: u64) -> Result<(), VaultFault> {
        self.call()?;
        self.sound();
        self.direct(directory);
        self.staged = false;
        Ok(())
    }

    fn put(&mut self, bytes: &[u8]) -> Result<(), VaultFault> {
        if bytes.len() as u64 > self.room - self.told.len() as u64 {
            self.output_faults = self.output_faults.saturating_add(1);
            self.alive = false;
            return Err(VaultFault::Output);
        }
        match self.told.extend_from_slice(bytes) {
            Ok(()) => Ok(()),
            Err(_) => unreachable!(),
        }
    }

    fn used(&self) -> u64 {
        self.words.len() as u64
    }

    fn capacity(&self) -> u64 {
        self.room
    }

    fn directory(&self) -> u64 {
        self.directory
    }

    fn writable(&self) -> bool {
        true
    }

    fn is_alive(&self) -> bool {
        self.alive
    }

    ghost space = { λ vault space is. is.sound };

    ghost one = { λ vault a b is other. sym is.is ∙ other.is };

    ghost bounds = { λ vault. (omega arith, omega arith, omega arith) };
}

// Whether the device call with this number fails.
fn fails_from(call: u64, failing: Option<u64>) -> bool
    ensures { result ≡ fails_from call failing }
{
    match failing {
        Some(number) => number <= call,
        None => false,
    }
}
