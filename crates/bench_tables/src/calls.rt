//! Many calls, one after another, each with another key.
ghost use Rattle.std.specs.Prelude.{◌≡◌, ◌<◌, true, IfOk};
ghost use Rattle.bench_tables.specs.Scene.{IsSet};

use crate::scene::{
    Scene, enter_number, enter_string, has_number, has_sought, make_scene, write_sought,
};
use anyhow::{Result, bail};
use std::alloc::Global;
use std::marker::Brand;
use std::sync::ledger::{Blank, Ledger};
use table_lib::table_nodes::counted_steps::steps::Steps;

// An odd number, so that no two products with it are the same.
const SPREAD: u32 = 0x9e37_79b1;

// The int of a number, far from that of the next one.
#[inline]
fn scattered(number: u32) -> i32 {
    number.wrapping_mul(SPREAD).cast_signed()
}

// The string of a number, as far from that of the next one.
#[inline]
fn digits(number: u32) -> [u8; 8] {
    let mut bytes = [b'0'; 8];
    let mut rest = number.wrapping_mul(SPREAD);
    for byte in &mut bytes {
        *byte = b'a' + (rest % 16) as u8;
        rest /= 16;
    }
    bytes
}

fn enter_ints(scene: &mut Scene, first: u32, count: u32) -> Result<u32>
    requires { IsSet scene.old }
    ensures { IfOk result (λ entered. IsSet scene.new) }
{
    let mut entered = 0u32;
    for number in 0..count {
        if !enter_number(scene, scattered(first.wrapping_add(number))) {
            bail!("refused");
        }
        entered = entered.wrapping_add(1);
    }
    Ok(entered)
}

fn enter_strings(scene: &mut Scene, count: u32) -> Result<u32>
    requires { IsSet scene.old }
    ensures { IfOk result (λ entered. IsSet scene.new) }
{
    let mut entered = 0u32;
    for number in 0..count {
        if !enter_string(scene, &digits(number)) {
            bail!("refused");
        }
        entered = entered.wrapping_add(1);
    }
    Ok(entered)
}

fn count_ints<L: Ledger>(scene: &mut Scene, keys: u32, calls: u32, blank: Blank) -> Result<u32>
    requires scene { IsSet scene.old }
    requires name { blank.name ≡ L.name }
    requires parts { blank.parts ≡ L.parts }
    requires some { 0 < L.parts }
{
    let mut steps = Steps::<L>::new(blank);
    let mut found = 0u32;
    for call in 0..calls {
        match has_number(scene, scattered(call % keys.max(1)), &mut steps) {
            Some(true) => found = found.wrapping_add(1),
            Some(false) => {}
            None => bail!("refused"),
        }
    }
    Ok(found)
}

fn count_strings<L: Ledger>(scene: &mut Scene, keys: u32, calls: u32, blank: Blank) -> Result<u32>
    requires scene { IsSet scene.old }
    requires name { blank.name ≡ L.name }
    requires parts { blank.parts ≡ L.parts }
    requires some { 0 < L.parts }
{
    let mut steps = Steps::<L>::new(blank);
    let mut found = 0u32;
    for call in 0..calls {
        write_sought(scene, &digits(call % keys.max(1)));
        match has_sought(scene, &mut steps) {
            Some(true) => found = found.wrapping_add(1),
            Some(false) => {}
            None => bail!("refused"),
        }
    }
    Ok(found)
}

/// Ints are entered, and looked up.
pub fn find_ints(alloc: Global, keys: u32, calls: u32) -> Result<u32> {
    let mut scene = make_scene(alloc)?;
    enter_ints(&mut scene, 0, keys)?;
    count_ints::<Brand>(&mut scene, keys, calls, Blank::new(1))
}

/// Strings of 8 bytes are entered, and looked up.
pub fn find_texts(alloc: Global, keys: u32, calls: u32) -> Result<u32> {
    let mut scene = make_scene(alloc)?;
    enter_strings(&mut scene, keys)?;
    count_strings::<Brand>(&mut scene, keys, calls, Blank::new(1))
}

/// The same without the lookups: the strings are written that are looked up.
pub fn write_texts(alloc: Global, keys: u32, calls: u32) -> Result<u32> {
    let mut scene = make_scene(alloc)?;
    enter_strings(&mut scene, keys)?;
    let mut written = 0u32;
    for call in 0..calls {
        write_sought(&mut scene, &digits(call % keys.max(1)));
        written = written.wrapping_add(1);
    }
    Ok(written)
}

/// Ints are entered, and then as many new ones as there are calls.
pub fn enter_more(alloc: Global, keys: u32, calls: u32) -> Result<u32> {
    let mut scene = make_scene(alloc)?;
    enter_ints(&mut scene, 0, keys)?;
    enter_ints(&mut scene, keys, calls)
}

/// Ints are entered, each above those before.
pub fn enter_rising(alloc: Global, keys: u32) -> Result<u32> {
    let mut scene = make_scene(alloc)?;
    for number in 0..keys {
        if !enter_number(&mut scene, number.cast_signed()) {
            bail!("refused");
        }
    }
    Ok(keys)
}

/// Ints are entered, each below those before.
pub fn enter_falling(alloc: Global, keys: u32) -> Result<u32> {
    let mut scene = make_scene(alloc)?;
    for number in 0..keys {
        if !enter_number(&mut scene, (keys - number).cast_signed()) {
            bail!("refused");
        }
    }
    Ok(keys)
}

/// Ints are entered, in no order.
pub fn enter_scattered(alloc: Global, keys: u32) -> Result<u32> {
    let mut scene = make_scene(alloc)?;
    enter_ints(&mut scene, 0, keys)
}
