//! Joins and compares texts of the greatest length, for `bench/run` to time. The first word of the command line is a number of joins, the
//! second a number of comparisons.
#![tactic(auto)]

ghost use Rattle.std.specs.Prelude.{IfOk};
ghost use Rattle.text_ops.specs.heap_texts.Texts.{HoldsText, StillTexts};

use anyhow::{Context, Result, bail};
use std::alloc::{AllocError, Global};
use std::cmp::Ordering;
use std::env;
use text_ops::heap_texts::make::make_text;
use text_ops::operators::{compare, join};
use text_ops::swizzle::fault::SwizzleFault;
use text_ops::swizzle::swizzle::Swizzle;

/// Room for four texts of the greatest length.
const WORDS: u32 = 33_000;

const MOST_BYTES: u32 = 65_535;

const FRONT_BYTES: usize = 32_767;

// So many bytes.
fn some_bytes(alloc: Global, count: u32) -> Result<Vec<u8>, AllocError> {
    let mut bytes = Vec::new(alloc);
    let mut byte = 0u8;
    for _ in 0..count {
        bytes.push(byte)?;
        byte = byte.wrapping_add(7);
    }
    Ok(bytes)
}

// A text more.
fn made(sw: &mut Swizzle, bytes: &[u8]) -> Result<u32, SwizzleFault>
    ensures there { IfOk result (HoldsText sw.new) }
    ensures stay { StillTexts sw.old sw.new }
{
    make_text(sw, bytes)
}

// Makes two texts in the empty area, and joins them: how many words they all take.
fn join_once(sw: &mut Swizzle, front: &[u8], back: &[u8]) -> Result<u32> {
    sw.reset();
    let Ok(a) = made(sw, front) else {
        bail!("no room for the front");
    };
    let Ok(b) = made(sw, back) else {
        bail!("no room for the back");
    };
    if join(sw, a, b).is_err() {
        bail!("not joined");
    }
    Ok(sw.top())
}

fn join_often(sw: &mut Swizzle, bytes: &[u8], count: u32) -> Result<u64> {
    let (front, back) = bytes.split_at(FRONT_BYTES.min(bytes.len()));
    let mut tops = 0u64;
    for _ in 0..count {
        tops = tops.wrapping_add(join_once(sw, front, back)? as u64);
    }
    Ok(tops)
}

// How many of so many comparisons answered that the texts are equal.
fn equal_times(sw: &Swizzle, a: u32, b: u32, count: u32) -> u64
    requires a { HoldsText sw.now a }
    requires b { HoldsText sw.now b }
{
    let mut equal = 0u64;
    for _ in 0..count {
        if compare(sw, a, b) == Ordering::Equal {
            equal = equal.wrapping_add(1);
        }
    }
    equal
}

fn compare_often(sw: &mut Swizzle, bytes: &[u8], count: u32) -> Result<u64> {
    sw.reset();
    let Ok(a) = made(sw, bytes) else {
        bail!("no room for a text");
    };
    let Ok(b) = made(sw, bytes) else {
        bail!("no room for another text");
    };
    Ok(equal_times(sw, a, b, count))
}

fn main(rt: HostRuntime) -> Result<()> {
    let mut words = env::args(&rt)?.skip(1);
    let joins = words.next().context("how many joins?")?.parse::<u32>()?;
    let comparisons = words
        .next()
        .context("how many comparisons?")?
        .parse::<u32>()?;
    let bytes = some_bytes(rt.alloc(), MOST_BYTES)?;
    let mut sw = Swizzle::new(rt.alloc(), WORDS)?;
    println!(rt; "{}", join_often(&mut sw, &bytes, joins)?)?;
    println!(rt; "{}", compare_often(&mut sw, &bytes, comparisons)?)?;
    Ok(())
}
