//! What pins hold: lists of pages that are committed.

ghost use Rattle.std.specs.Prelude.{◌≡◌, ℕ, ◌<◌, ◌≤◌, List, length, map, OnOk, OnErr};
ghost use Rattle.paged_volume.specs.Pinning.{outdated, NoneIsHeld, Reserves, Pins, Unpins};
ghost use Rattle.paged_volume.specs.Standing.{IsTable, Says};

use crate::pinned::Pinned;
use crate::table::Table;
use std::alloc::{AllocError, Global};

// What a pin holds is no more that of the last commit.
fn outdated(held: Option<Pinned>) -> Option<Pinned>
    ensures { result ≡ outdated held }
{
    match held {
        Some(pinned) => Some(Pinned {
            note: pinned.note,
            current: false,
        }),
        None => None,
    }
}

/// What pins hold is no more that of the last commit.
pub fn outdate(pins: &mut [Option<Pinned>])
    ensures { pins.new ≡ map outdated pins.old }
{
    for held in pins.iter_mut() {
        *held = outdated(*held);
    }
}

/// Makes so many pins, which hold nothing, in place of those that there were. After an error all is as before.
pub fn reserve_pins(table: &mut Table, alloc: Global, pins: u32) -> Result<(), AllocError>
    requires table { IsTable table.old }
    requires few { pins ≤ 8 }
    requires none { NoneIsHeld table.old }
    ensures reserves { OnOk result (Reserves pins table.old table.new) }
    ensures same { OnErr result (table.new ≡ table.old) }
    ensures table { IsTable table.new }
    ensures says { (image : List ℕ) → Says table.old image → Says table.new image }
{
    let held = Vec::from_elem(alloc, None, pins as usize)?;
    table.map.reserve_pins(alloc, pins)?;
    table.pins = held;
    Ok(())
}

/// The pin holds what is committed, in place of what it held.
pub fn pin(table: &mut Table, pin: u32)
    requires table { IsTable table.old }
    requires pin { pin < length table.old.pins.items }
    ensures pins { Pins pin table.old table.new }
    ensures table { IsTable table.new }
    ensures says { (image : List ℕ) → Says table.old image → Says table.new image }
{
    table.map.sound();
    table.map.pin(pin);
    table.pins[pin as usize] = Some(Pinned {
        note: table.committed.note,
        current: true,
    });
}

/// The pin holds nothing.
pub fn unpin(table: &mut Table, pin: u32)
    requires table { IsTable table.old }
    requires pin { pin < length table.old.pins.items }
    ensures unpins { Unpins pin table.old table.new }
    ensures table { IsTable table.new }
    ensures says { (image : List ℕ) → Says table.old image → Says table.new image }
{
    table.map.sound();
    table.map.unpin(pin);
    table.pins[pin as usize] = None;
}
