ghost use Rattle.std.specs.Prelude.{◌≡◌, ℕ, ◌+◌, ◌<◌, ◌≤◌, ◌^◌, List, length, map, IsSome, true, false, IfOk, IfErr, OnOk, OnErr};
ghost use Rattle.paged_volume.specs.Attaching.{IsRefused};
ghost use Rattle.paged_volume.specs.Pinning.{pin_of, outdated, NoneIsHeld, Reserves, Pins, Unpins};
ghost use Rattle.obj_layout.specs.Stored.{IsHeaded};
ghost use Rattle.obj_layout.specs.Storing.{Puts, NeverDamaged, NeverFull, NeverLacksPages};
ghost use Rattle.obj_store.specs.Calls.{Measures, Fetches, Appends, Overwrites, SettlesAll};
ghost use Rattle.obj_store.specs.Lending.{others_of};
ghost use Rattle.obj_store.specs.Staging.{SamePins};
ghost use Rattle.obj_store.specs.Store.{is_alone};
ghost use Rattle.obj_store.specs.Viewing.{IsSource, IsViewed, IsFew, ShowsPin};

use crate::kept::KeptPages;
use crate::objects::{append_at, fetch_at, length_at, overwrite_at};
use crate::pinning::source_in;
use crate::settling::settle_all;
use crate::source::Source;
use obj_layout::vault::{Vault, VaultFault};
use paged_volume::layout::capacity;
use paged_volume::volume_parts::OpenFault;
use paged_volume::{Refused, Volume};
use ps_port::Host;
use std::alloc::{AllocError, Global};
use std::marker::Model;

/// A store of objects over a volume. Its space is the words of the volume's pages, of eight bytes each, the low one first. What is stored is
/// staged in the volume; `settle` commits it. After any fault its calls may not be made.
#[derive(Drop)]
pub struct ObjStore<H: Host> {
    volume: Volume<H>,
    // A few of its pages, so that objects near one another don't read a page each.
    kept: KeptPages,
    // The words that are used as they are staged.
    used: u64,
    // Something was staged since the last commit.
    staged: bool,
    // No call has answered a fault.
    live: bool,
}

impl<H: Host> Model for ObjStore<H> {
    ghost use Rattle.obj_store.specs.Store.{Store};

    ghost Value = { Store H };

    ghost use Rattle.obj_store.specs.StoreView.{store_of, IsKeptIn};

    ghost view = { λ store. store_of store };

    ghost invariant = { λ store. IsKeptIn H.outside store };
}

impl<H: Host> ObjStore<H> {
    ghost use Rattle.obj_store.specs.Opening.{IsOpened};

    /// Attaches the store in the volume of a host, as `Volume::attach` does: it holds what is committed there. Memory is taken here alone.
    pub fn attach(alloc: Global, host: H) -> Result<ObjStore<H>, Refused<H>>
        ensures ok { IfOk result (λ store. IsOpened H.outside (H.outside host) store) }
        ensures err { IfErr result (λ refused. IsRefused (H.outside host) (H.outside refused.host) refused.cause) }
    {
        let kept = match KeptPages::new(alloc) {
            Ok(kept) => kept,
            Err(_) => {
                return Err(Refused {
                    cause: OpenFault::Memory,
                    host,
                });
            }
        };
        match Volume::attach(alloc, host) {
            Ok(volume) => {
                volume.sound();
                let used = volume.note().used;
                Ok(ObjStore {
                    volume,
                    kept,
                    used,
                    staged: false,
                    live: true,
                })
            }
            Err(refused) => Err(refused),
        }
    }

    /// Gives the host back, also after a fault.
    pub fn release(self) -> H
        ensures { result ≡ self.host }
    {
        self.volume.release()
    }
}

impl<H: Host> ObjStore<H> {
    ghost use Rattle.obj_store.specs.Store.{access_of, outside_at, outside_of, used_of, most_of};
    ghost use Rattle.obj_store.specs.declared.source.Source.TheVariants.{Staged};

    /// Makes so many pins, at most eight, which hold nothing, in place of those that there were. After an error all is as before.
    pub fn reserve_pins(&mut self, alloc: Global, pins: u32) -> Result<(), AllocError>
        requires alive { self.old.live ≡ true }
        requires few { pins ≤ 8 }
        requires none { NoneIsHeld self.old.table }
        ensures reserves { OnOk result (Reserves pins self.old.table self.new.table) }
        ensures same { OnErr result (self.new.table ≡ self.old.table) }
        ensures host { self.new.host ≡ self.old.host }
        ensures kept { (self.new.used ≡ self.old.used) × (self.new.staged ≡ self.old.staged) }
        ensures live { self.new.live ≡ true }
    {
        self.volume.reserve_pins(alloc, pins)
    }

    /// The pin holds what is committed, in place of what it held.
    pub fn pin(&mut self, pin: u32)
        requires alive { self.old.live ≡ true }
        requires pin { pin < length self.old.table.pins.items }
        ensures pins { Pins pin self.old.table self.new.table }
        ensures host { self.new.host ≡ self.old.host }
        ensures same { (self.new.used ≡ self.old.used) × (self.new.staged ≡ self.old.staged) }
        ensures live { self.new.live ≡ true }
    {
        self.volume.pin(pin);
    }

    /// The pin holds nothing.
    pub fn unpin(&mut self, pin: u32)
        requires alive { self.old.live ≡ true }
        requires pin { pin < length self.old.table.pins.items }
        ensures unpins { Unpins pin self.old.table self.new.table }
        ensures host { self.new.host ≡ self.old.host }
        ensures same { (self.new.used ≡ self.old.used) × (self.new.staged ≡ self.old.staged) }
        ensures live { self.new.live ≡ true }
    {
        self.volume.unpin(pin);
    }

    /// Whether the pin holds something.
    pub fn is_pinned(&self, pin: u32) -> bool
        ensures { result ≡ true → IsSome (pin_of self.now.table pin) }
    {
        self.volume.is_pinned(pin)
    }

    /// Whether something was staged since the last commit.
    pub fn is_staged(&self) -> bool
        ensures { result ≡ self.now.staged }
    {
        self.staged
    }

    // Where a view of the pin reads.
    pub(crate) fn source_of(&self, pin: u32) -> Source
        requires alive { self.now.live ≡ true }
        requires pin { IsSome (pin_of self.now.table pin) }
        ensures viewed { IsViewed self.now.table pin result }
        ensures few { IsFew result }
        ensures shows { self.now.staged ≡ false → ShowsPin H.outside self.now pin result }
    {
        source_in(&self.volume, pin)
    }

    // How many words an object has, as the source shows it.
    pub(crate) fn length_in(&mut self, source: Source, pid: u64) -> Result<u32, VaultFault>
        requires alive { self.old.live ≡ true }
        requires source { IsSource self.old.table source }
        ensures measures { Measures (outside_at H.outside source self.old) (outside_at H.outside source self.new) pid result }
        ensures same { (self.new.table ≡ self.old.table) × (self.new.used ≡ self.old.used) × (self.new.staged ≡ self.old.staged) }
        ensures alive { OnOk result (self.new.live ≡ true) }
        ensures dead { OnErr result (self.new.live ≡ false) }
    {
        let used = source.used_of(self.used);
        match length_at(&mut self.volume, &mut self.kept, source, used, pid) {
            Ok(count) => Ok(count),
            Err(fault) => {
                self.live = false;
                Err(fault)
            }
        }
    }

    // The words of an object, as the source shows it.
    pub(crate) fn fetch_in(
        &mut self,
        source: Source,
        pid: u64,
        into: &mut [u64],
    ) -> Result<(), VaultFault>
        requires alive { self.old.live ≡ true }
        requires source { IsSource self.old.table source }
        ensures fetches { Fetches (outside_at H.outside source self.old) (outside_at H.outside source self.new) pid (length into.old) into.new result }
        ensures same { (self.new.table ≡ self.old.table) × (self.new.used ≡ self.old.used) × (self.new.staged ≡ self.old.staged) }
        ensures alive { OnOk result (self.new.live ≡ true) }
        ensures dead { OnErr result (self.new.live ≡ false) }
    {
        let used = source.used_of(self.used);
        match fetch_at(&mut self.volume, &mut self.kept, source, used, pid, into) {
            Ok(()) => Ok(()),
            Err(fault) => {
                self.live = false;
                Err(fault)
            }
        }
    }

    // Stages a new object.
    pub(crate) fn append_new(&mut self, words: &[u64]) -> Result<u64, VaultFault>
        requires alive { self.old.live ≡ true }
        requires headed { IsHeaded words.now }
        ensures appends { Appends (outside_of H.outside self.old) (outside_of H.outside self.new) words.now (used_of self.old) (used_of self.new) (most_of self.old) (access_of self.old) result }
        ensures pins { SamePins self.old.table self.new.table }
        ensures committed { self.new.table.committed ≡ self.old.table.committed }
        ensures alive { OnOk result (self.new.live ≡ true) }
        ensures dead { OnErr result (self.new.live ≡ false) }
    {
        self.staged = true;
        let pid = self.used;
        match append_at(&mut self.volume, &mut self.kept, pid, words) {
            Ok(()) => {
                self.used = pid + words.len() as u64;
                Ok(pid)
            }
            Err(fault) => {
                self.live = false;
                Err(fault)
            }
        }
    }

    // Stages these words in place of the object's.
    pub(crate) fn overwrite_old(&mut self, pid: u64, words: &[u64]) -> Result<(), VaultFault>
        requires alive { self.old.live ≡ true }
        requires headed { IsHeaded words.now }
        ensures overwrites { Overwrites (outside_of H.outside self.old) (outside_of H.outside self.new) pid words.now (access_of self.old) result }
        ensures pins { SamePins self.old.table self.new.table }
        ensures committed { self.new.table.committed ≡ self.old.table.committed }
        ensures used { self.new.used ≡ self.old.used }
        ensures alive { OnOk result (self.new.live ≡ true) }
        ensures dead { OnErr result (self.new.live ≡ false) }
    {
        self.staged = true;
        match overwrite_at(&mut self.volume, &mut self.kept, self.used, pid, words) {
            Ok(()) => Ok(()),
            Err(fault) => {
                self.live = false;
                Err(fault)
            }
        }
    }

    // Commits all that is staged.
    pub(crate) fn settle_staged(&mut self, directory: u64) -> Result<(), VaultFault>
        requires alive { self.old.live ≡ true }
        requires below { directory < used_of self.old }
        ensures settles { SettlesAll (outside_of H.outside self.old) (outside_of H.outside self.new) (used_of self.old) directory (access_of self.old) result }
        ensures directory { OnOk result (self.new.table.committed.note.directory ≡ directory) }
        ensures unstaged { OnOk result (self.new.staged ≡ false) }
        ensures outdated { OnOk result (self.new.table.pins.items ≡ map outdated self.old.table.pins.items) }
        ensures kept { OnErr result (self.new.table.pins.items ≡ self.old.table.pins.items) }
        ensures lists { self.new.table.map.pins ≡ self.old.table.map.pins }
        ensures same { (self.new.used ≡ self.old.used) × (self.new.table.committed.pages ≡ self.old.table.committed.pages) }
        ensures alone { is_alone self.new.table.pins.items ≡ is_alone self.old.table.pins.items }
        ensures alive { OnOk result (self.new.live ≡ true) }
        ensures dead { OnErr result (self.new.live ≡ false) }
    {
        match settle_all(&mut self.volume, self.used, directory) {
            Ok(()) => {
                self.kept.clear();
                self.staged = false;
                Ok(())
            }
            Err(fault) => {
                self.live = false;
                Err(fault)
            }
        }
    }

    // Commits all that is staged; then the pin holds that.
    pub(crate) fn settle_pinned(&mut self, pin: u32, directory: u64) -> Result<(), VaultFault>
        requires alive { self.old.live ≡ true }
        requires pin { pin < length self.old.table.pins.items }
        requires below { directory < used_of self.old }
        ensures settles { SettlesAll (outside_of H.outside self.old) (outside_of H.outside self.new) (used_of self.old) directory (access_of self.old) result }
        ensures directory { OnOk result (self.new.table.committed.note.directory ≡ directory) }
        ensures viewed { OnOk result (IsViewed self.new.table pin Staged) }
        ensures unstaged { OnOk result (self.new.staged ≡ false) }
        ensures others { others_of self.new.table pin ≡ others_of self.old.table pin }
        ensures same { (self.new.used ≡ self.old.used) × (self.new.table.committed.pages ≡ self.old.table.committed.pages) }
        ensures alive { OnOk result (self.new.live ≡ true) }
        ensures dead { OnErr result (self.new.live ≡ false) }
    {
        match self.settle_staged(directory) {
            Ok(()) => {
                self.pin(pin);
                Ok(())
            }
            Err(fault) => Err(fault),
        }
    }

    // Writes these bytes; what the source shows stays.
    pub(crate) fn put_in(&mut self, source: Source, bytes: &[u8]) -> Result<(), VaultFault>
        requires alive { self.old.live ≡ true }
        ensures told { Puts (outside_at H.outside source self.old) (outside_at H.outside source self.new) bytes.now result }
        ensures never { NeverFull result × NeverLacksPages result × NeverDamaged result }
        ensures same { (self.new.table ≡ self.old.table) × (self.new.used ≡ self.old.used) × (self.new.staged ≡ self.old.staged) }
        ensures alive { OnOk result (self.new.live ≡ true) }
        ensures dead { OnErr result (self.new.live ≡ false) }
    {
        let _ = source;
        match self.volume.put(bytes) {
            Ok(()) => Ok(()),
            Err(_) => {
                self.live = false;
                Err(VaultFault::Output)
            }
        }
    }
}

impl<H: Host> Vault for ObjStore<H> {
    ghost use Rattle.obj_store.specs.Store.{outside_of, used_of, most_of, directory_of, access_of};
    ghost use Rattle.obj_store.specs.declared.source.Source.TheVariants.{Staged};

    ghost outside = { λ store. outside_of H.outside store };

    ghost alive = { λ store. store.live ≡ true };

    ghost used_words = { λ store. used_of store };

    ghost most_words = { λ store. most_of store };

    ghost directory_at = { λ store. directory_of store };

    ghost Lent = { Unit {0} };

    ghost access = { λ store. access_of store };

    fn length(&mut self, pid: u64) -> Result<u32, VaultFault> {
        self.length_in(Source::Staged, pid)
    }

    fn fetch(&mut self, pid: u64, into: &mut [u64]) -> Result<(), VaultFault> {
        self.fetch_in(Source::Staged, pid, into)
    }

    fn append(&mut self, words: &[u64]) -> Result<u64, VaultFault> {
        self.append_new(words)
    }

    fn overwrite(&mut self, pid: u64, words: &[u64]) -> Result<(), VaultFault> {
        self.overwrite_old(pid, words)
    }

    fn settle(&mut self, directory: u64) -> Result<(), VaultFault> {
        self.settle_staged(directory)
    }

    fn put(&mut self, bytes: &[u8]) -> Result<(), VaultFault> {
        self.put_in(Source::Staged, bytes)
    }

    fn used(&self) -> u64 {
        self.used
    }

    fn capacity(&self) -> u64 {
        capacity(self.volume.pages())
    }

    fn directory(&self) -> u64 {
        self.volume.note().directory
    }

    fn writable(&self) -> bool {
        true
    }

    fn is_alive(&self) -> bool {
        self.live
    }

    ghost use Rattle.paged_volume.specs.Layout.{capacity_of};
    ghost use Rattle.obj_store.specs.StoreLaws.{is_space, is_one, in_bounds};

    ghost space = { λ store space is. is_space Staged store.used store.table (H.outside store.host) space is };

    ghost one = { λ store a b is other. is_one Staged store.used store.table (H.outside store.host) (H.one store.host) a b is other };

    ghost bounds = { λ store. in_bounds store.used (capacity_of store.table.committed.pages) };
}
