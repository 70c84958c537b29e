//! A volume over its host.

ghost use Rattle.std.specs.Prelude.{◌≡◌, ℕ, ◌+◌, ◌*◌, ◌<◌, ◌≤◌, List, length, take, drop, replicate, map, slice_index, Option, Some, IsSome, true, false, OnOk, OnErr, IfOk, IfErr};
ghost use Rattle.std.specs.Option.{option_map};
ghost use Rattle.ps_port.specs.ps_outside.Past.{KeepsPast};
ghost use Rattle.ps_port.specs.ps_outside.Outside.{After, TellsPrefix, ToldAll, IsPutCall, Rose};
ghost use Rattle.page_map.specs.Pages.{held_of};
ghost use Rattle.volume_parts.specs.Holding.{Held};
ghost use Rattle.volume_parts.specs.Calls.{Looks};
ghost use Rattle.volume_parts.specs.Layout.{pages_of_words};
ghost use Rattle.paged_volume.specs.Layout.{capacity_pages, capacity_of};
ghost use Rattle.paged_volume.specs.Standing.{IsAlive, IsFit, logical_of, held_in, seen, with_zeros};
ghost use Rattle.paged_volume.specs.Attaching.{IsAttached, IsRefused};
ghost use Rattle.paged_volume.specs.Staging.{page_of, with_page, Stages, HasPages, Marks, IsPutFault};
ghost use Rattle.paged_volume.specs.Changing.{next_number};
ghost use Rattle.paged_volume.specs.Pinning.{pin_of, outdated, Holds, IsHeldBy, KeepsPins, NoneIsHeld, Reserves, Pins, Unpins};
ghost use Rattle.paged_volume.specs.declared.pinned.Pinned.{Pinned};
ghost use Rattle.paged_volume.specs.Planning.{switched};
ghost use Rattle.paged_volume.specs.Committing.{Switches, TakesCalls, HasRoom, IsSwitchFault};

use crate::finding::find;
use crate::layout::page_at;
use crate::pinning::{pin as pin_committed, reserve_pins, unpin};
use crate::placing::place_for;
use crate::planning::{next_committed, plan, turn, wanted_pages};
use crate::rooting::switch_to;
use crate::table::Table;
use ps_port::{Host, HostFailed};
use std::alloc::{AllocError, Global};
use volume_parts::{Note, OpenFault};

/// A host without a volume, and why there is none.
#[derive(Drop)]
pub struct Refused<H: Host> {
    pub cause: OpenFault,
    pub host: H,
}

/// Why a call of a volume failed. After Device the volume isn't alive.
#[derive(Clone, Copy, Debug, PartialEq, Eq)]
pub enum VolumeFault {
    /// A call of the device failed, and its count of faults rose.
    Device,
    /// There are too few pages: so many are held, so many more are wanted, and the volume has so many. Nothing was written, and what was staged
    /// stays so.
    Full { held: u32, wanted: u32, pages: u32 },
}

/// A volume over its host: what is committed in it, and in which page each logical page stands as it is staged.
#[derive(Drop)]
pub struct Volume<H: Host> {
    host: H,
    table: Table,
    live: bool,
}

impl<H: Host> Volume<H> {
    /// Attaches the volume of a host, by a sync and then the tests of its file. The map pages are read once each, and eight more calls of the
    /// device are made at most. It leaves the file as it is, also where there is no volume in it. Memory is taken here alone.
    pub fn attach(alloc: Global, host: H) -> Result<Volume<H>, Refused<H>>
        ensures ok { IfOk result (λ volume. IsAttached (H.outside host) (H.outside volume.host) volume.live volume.table) }
        ensures err { IfErr result (λ refused. IsRefused (H.outside host) (H.outside refused.host) refused.cause) }
    {
        let mut host = host;
        match find(alloc, &mut host) {
            Ok(table) => Ok(Volume {
                host,
                table,
                live: true,
            }),
            Err(cause) => Err(Refused { cause, host }),
        }
    }

    /// Reads a page as it is staged: what was put last, else what is committed, else zeros. It takes one call of the device at most.
    pub fn read_page(&mut self, page: u32, into: &mut [u8]) -> Result<(), VolumeFault>
        requires alive { IsAlive self.old.live self.old.table (H.outside self.old.host) }
        requires page { page < capacity_pages self.old.table.committed.pages }
        requires size { length into.old ≡ 4096 }
        ensures read { OnOk result ((held : Held) → (seen self.old.table (H.outside self.old.host)).contents (Some held) → into.new ≡ page_of page held) }
        ensures size { length into.new ≡ 4096 }
        ensures looks { Looks (H.outside self.old.host) (H.outside self.new.host) 1 }
        ensures same { self.new.table ≡ self.old.table }
        ensures alive { OnOk result (IsAlive self.new.live self.new.table (H.outside self.new.host)) }
        ensures dies { OnErr result (self.new.live ≡ false) }
        ensures cause { OnErr result (Rose (H.outside self.old.host).device_faults (H.outside self.new.host).device_faults) }
    {
        let number = self.table.map.staged(page);
        self.read_numbered(number, into)
    }

    /// Stages a page, with one call of the device: in a page of its own that nothing else names, the same one until the next commit. In what a crash leaves
    /// the same volume is found as before, also where the call fails. Full exactly where the page has no page of its own since the last commit and none
    /// is free.
    pub fn put_page(&mut self, page: u32, from: &[u8]) -> Result<(), VolumeFault>
        requires alive { IsAlive self.old.live self.old.table (H.outside self.old.host) }
        requires page { page < capacity_pages self.old.table.committed.pages }
        requires size { length from.now ≡ 4096 }
        ensures put { OnOk result ((found : Option Held) → (seen self.new.table (H.outside self.new.host)).contents found →
            After (seen self.old.table (H.outside self.old.host)).contents (λ before after. option_map (with_page page from.now) before ≡ after) found) }
        ensures stays { OnOk result ((found : Option Held) → (seen self.old.table (H.outside self.old.host)).contents found →
            (seen self.new.table (H.outside self.new.host)).contents (option_map (with_page page from.now) found)) }
        ensures stages { Stages (seen self.old.table (H.outside self.old.host)) (seen self.new.table (H.outside self.new.host)) 1 }
        ensures past { KeepsPast (H.outside self.old.host) (H.outside self.new.host) }
        ensures committed { self.new.table.committed ≡ self.old.table.committed }
        ensures marks { OnOk result (Marks page self.old.table self.new.table) }
        ensures pins { self.new.table.pins.items ≡ self.old.table.pins.items }
        ensures lists { (self.new.table.map.committed ≡ self.old.table.map.committed) × (self.new.table.map.pins ≡ self.old.table.map.pins) }
        ensures pinned { OnOk result (KeepsPins self.old.table self.new.table (H.outside self.old.host) (H.outside self.new.host)) }
        ensures alive { OnOk result (IsAlive self.new.live self.new.table (H.outside self.new.host)) }
        ensures fault { IfErr result (IsPutFault H.outside self.old.host self.new.host self.old.live self.new.live self.old.table self.new.table page) }
    {
        let number = match place_for(&mut self.table.map, page) {
            Some(number) => number,
            None => {
                return Err(VolumeFault::Full {
                    held: self.table.map.held(),
                    wanted: 1,
                    pages: self.table.committed.pages,
                });
            }
        };
        match self.host.write_at(page_at(number), from) {
            Ok(()) => {
                self.table.map.replace(page, number);
                Ok(())
            }
            Err(_) => {
                self.live = false;
                Err(VolumeFault::Device)
            }
        }
    }

    /// Commits what is staged, under so many used words and this directory: at each moment a crash leaves what it could leave before, or all of what is
    /// saved now. The pages past the used words have no page afterwards, and are zeros. What pins hold stays. Only the map pages whose numbers changed are written, and the index page.
    /// Full, before any write, exactly where the pages that are held and those that they want are more than there are; then all stays staged.
    pub fn switch(&mut self, used: u64, directory: u64) -> Result<(), VolumeFault>
        requires alive { IsAlive self.old.live self.old.table (H.outside self.old.host) }
        requires used { (1 ≤ used) × (used ≤ capacity_of self.old.table.committed.pages) }
        requires directory { directory < used }
        requires has { HasPages self.old.table (pages_of_words used) }
        ensures switches { Switches (seen self.old.table (H.outside self.old.host)) (seen self.new.table (H.outside self.new.host)) self.old.table.committed.pages used directory result }
        ensures past { KeepsPast (H.outside self.old.host) (H.outside self.new.host) }
        ensures calls { TakesCalls (H.outside self.old.host) (H.outside self.new.host) self.old.table.map (switched used directory self.old.table.committed) used }
        ensures committed { OnOk result (self.new.table.committed ≡ switched used directory self.old.table.committed) }
        ensures uncommitted { OnErr result (self.new.table.committed ≡ self.old.table.committed) }
        ensures blank { OnOk result (self.new.table.map.staged ≡ self.new.table.map.committed) }
        ensures numbers { OnOk result ((page : ℕ) → slice_index self.new.table.map.committed page ≡ next_number self.old.table.map (pages_of_words used) page) }
        ensures pins { OnOk result (self.new.table.pins.items ≡ map outdated self.old.table.pins.items) }
        ensures kept { OnErr result (self.new.table.pins.items ≡ self.old.table.pins.items) }
        ensures lists { self.new.table.map.pins ≡ self.old.table.map.pins }
        ensures pinned { OnOk result (KeepsPins self.old.table self.new.table (H.outside self.old.host) (H.outside self.new.host)) }
        ensures room { OnOk result (HasRoom self.old.table (switched used directory self.old.table.committed)) }
        ensures alive { OnOk result (IsAlive self.new.live self.new.table (H.outside self.new.host)) }
        ensures fault { IfErr result (IsSwitchFault H.outside self.old.host self.new.host self.old.live self.new.live self.old.table self.new.table (switched used directory self.old.table.committed)) }
    {
        let next = next_committed(self.table.committed, used, directory);
        let wanted = wanted_pages(&self.table.map, next);
        let held = self.table.map.held();
        let pages = self.table.committed.pages;
        if pages < held + wanted {
            return Err(VolumeFault::Full {
                held,
                wanted,
                pages,
            });
        }
        plan(&mut self.table, next);
        match switch_to(&mut self.host, &self.table, next) {
            Ok(()) => {
                turn(&mut self.table, next);
                Ok(())
            }
            Err(_) => {
                self.live = false;
                Err(VolumeFault::Device)
            }
        }
    }

    /// Makes so many pins, at most eight, which hold nothing, in place of those that there were. After an error all is as before.
    pub fn reserve_pins(&mut self, alloc: Global, pins: u32) -> Result<(), AllocError>
        requires alive { IsAlive self.old.live self.old.table (H.outside self.old.host) }
        requires few { pins ≤ 8 }
        requires none { NoneIsHeld self.old.table }
        ensures reserves { OnOk result (Reserves pins self.old.table self.new.table) }
        ensures same { OnErr result (self.new.table ≡ self.old.table) }
        ensures host { self.new.host ≡ self.old.host }
        ensures alive { IsAlive self.new.live self.new.table (H.outside self.new.host) }
    {
        reserve_pins(&mut self.table, alloc, pins)
    }

    /// The pin holds what is committed, in place of what it held. A page that only the list given up named is free then. What a pin holds isn't written, until it is
    /// given up.
    pub fn pin(&mut self, pin: u32)
        requires alive { IsAlive self.old.live self.old.table (H.outside self.old.host) }
        requires pin { pin < length self.old.table.pins.items }
        ensures pins { Pins pin self.old.table self.new.table }
        ensures holds { (held : Held) → Holds self.new.table pin (H.outside self.new.host) held →
            After (H.outside self.old.host).contents (λ bytes held. option_map (with_zeros self.old.table.committed.pages) (held_in bytes) ≡ Some held) held }
        ensures stays { (held : Held) → After (H.outside self.old.host).contents (λ bytes held. option_map (with_zeros self.old.table.committed.pages) (held_in bytes) ≡ Some held) held →
            Holds self.new.table pin (H.outside self.new.host) held }
        ensures host { self.new.host ≡ self.old.host }
        ensures alive { IsAlive self.new.live self.new.table (H.outside self.new.host) }
    {
        pin_committed(&mut self.table, pin);
    }

    /// The pin holds nothing. A page that only the list given up named is free then.
    pub fn unpin(&mut self, pin: u32)
        requires alive { IsAlive self.old.live self.old.table (H.outside self.old.host) }
        requires pin { pin < length self.old.table.pins.items }
        ensures unpins { Unpins pin self.old.table self.new.table }
        ensures host { self.new.host ≡ self.old.host }
        ensures alive { IsAlive self.new.live self.new.table (H.outside self.new.host) }
    {
        unpin(&mut self.table, pin);
    }

    /// Reads a page as the pin holds it; past the pages of its commit they are zeros. It takes one call of the device at most.
    pub fn read_pinned(&mut self, pin: u32, page: u32, into: &mut [u8]) -> Result<(), VolumeFault>
        requires alive { IsAlive self.old.live self.old.table (H.outside self.old.host) }
        requires pin { IsSome (pin_of self.old.table pin) }
        requires page { page < capacity_pages self.old.table.committed.pages }
        requires size { length into.old ≡ 4096 }
        ensures read { OnOk result ((held : Held) → Holds self.old.table pin (H.outside self.old.host) held → into.new ≡ page_of page held) }
        ensures size { length into.new ≡ 4096 }
        ensures looks { Looks (H.outside self.old.host) (H.outside self.new.host) 1 }
        ensures same { self.new.table ≡ self.old.table }
        ensures alive { OnOk result (IsAlive self.new.live self.new.table (H.outside self.new.host)) }
        ensures dies { OnErr result (self.new.live ≡ false) }
        ensures cause { OnErr result (Rose (H.outside self.old.host).device_faults (H.outside self.new.host).device_faults) }
    {
        self.table.map.sound();
        let number = self.table.map.pinned(pin, page);
        self.read_numbered(number, into)
    }

    // Reads the page of this number, or zeros where it is 0.
    fn read_numbered(&mut self, number: u32, into: &mut [u8]) -> Result<(), VolumeFault>
        requires alive { IsAlive self.old.live self.old.table (H.outside self.old.host) }
        requires number { number < self.old.table.committed.pages }
        requires size { length into.old ≡ 4096 }
        ensures zeros { number ≡ 0 → into.new ≡ replicate 4096 0 }
        ensures read { OnOk result (1 ≤ number → (bytes : List ℕ) → (H.outside self.old.host).contents bytes → into.new ≡ take 4096 (drop (4096 * number) bytes)) }
        ensures size { length into.new ≡ 4096 }
        ensures looks { Looks (H.outside self.old.host) (H.outside self.new.host) 1 }
        ensures same { self.new.table ≡ self.old.table }
        ensures alive { OnOk result (IsAlive self.new.live self.new.table (H.outside self.new.host)) }
        ensures dies { OnErr result (self.new.live ≡ false) }
        ensures cause { OnErr result (Rose (H.outside self.old.host).device_faults (H.outside self.new.host).device_faults) }
    {
        if number == 0 {
            into.fill(0);
            return Ok(());
        }
        match self.host.read_at(page_at(number), into) {
            Ok(()) => Ok(()),
            Err(_) => {
                self.live = false;
                Err(VolumeFault::Device)
            }
        }
    }

    /// The note of the commit that the pin holds.
    pub fn pinned_note(&self, pin: u32) -> Note
        requires { IsSome (pin_of self.now.table pin) }
        ensures { (held : Pinned) → IsHeldBy self.now.table pin held → result ≡ held.note }
    {
        match self.table.pins[pin as usize] {
            Some(held) => held.note,
            None => unreachable!(),
        }
    }

    /// Whether the pin holds the last commit: no switch answered Ok since it was set.
    pub fn is_current(&self, pin: u32) -> bool
        requires { IsSome (pin_of self.now.table pin) }
        ensures { (held : Pinned) → IsHeldBy self.now.table pin held → result ≡ held.current }
    {
        match self.table.pins[pin as usize] {
            Some(held) => held.current,
            None => unreachable!(),
        }
    }

    /// Whether the pin holds something.
    pub fn is_pinned(&self, pin: u32) -> bool
        ensures { result ≡ true → IsSome (pin_of self.now.table pin) }
    {
        let place = pin as usize;
        if place >= self.table.pins.len() {
            return false;
        }
        self.table.pins[place].is_some()
    }

    /// How many pages aren't free: those of what is committed, staged and pinned, and the first four.
    pub fn held(&self) -> u32
        ensures { result ≡ held_of self.now.table.map.free }
    {
        self.table.map.held()
    }

    /// Writes the bytes, as the host does. It is alive afterwards where it was.
    pub fn put(&mut self, bytes: &[u8]) -> Result<(), HostFailed>
        ensures cut { TellsPrefix (H.outside self.old.host) (H.outside self.new.host) bytes.now }
        ensures all { OnOk result (ToldAll (H.outside self.old.host) (H.outside self.new.host) bytes.now) }
        ensures calm { OnOk result ((H.outside self.new.host).output_faults ≡ (H.outside self.old.host).output_faults) }
        ensures call { IsPutCall (H.outside self.old.host) (H.outside self.new.host) result }
        ensures same { self.new.table ≡ self.old.table }
        ensures lives { self.new.live ≡ self.old.live }
        ensures alive { IsAlive self.old.live self.old.table (H.outside self.old.host) → IsAlive self.new.live self.new.table (H.outside self.new.host) }
    {
        self.host.put(bytes)
    }

    /// What the selected root page says of the last commit.
    pub fn note(&self) -> Note
        ensures { result ≡ self.now.table.committed.note }
    {
        self.table.committed.note
    }

    /// How many pages the volume has.
    pub fn pages(&self) -> u32
        ensures { result ≡ self.now.table.committed.pages }
    {
        self.table.committed.pages
    }

    /// The depth of the root page that is selected: 1 where an index page names the map pages, else 0.
    pub fn depth(&self) -> u32
        ensures { result ≡ self.now.table.committed.depth }
    {
        self.table.committed.depth
    }

    /// Whether calls may be made: none failed yet.
    pub fn is_alive(&self) -> bool
        ensures { result ≡ self.now.live }
    {
        self.live
    }

    /// A law: what is so of every volume that is alive.
    pub fn sound(&self)
        requires { IsAlive self.now.live self.now.table (H.outside self.now.host) }
        ensures fit { IsFit self.now.table.committed }
        ensures pages { HasPages self.now.table (logical_of self.now.table.committed) }
    {
        let _pages = self.table.committed.pages;
    }

    /// Gives the host back.
    pub fn release(self) -> H
        ensures { result ≡ self.host }
    {
        self.host
    }
}
