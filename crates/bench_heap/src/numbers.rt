//! Vectors of ints: their number words, and their elements.
ghost use Rattle.std.specs.Prelude.{◌<◌, IfOk, IfSome};
ghost use Rattle.proc_values.specs.swizzle.Heap.{IsHeld, Stands};
ghost use Rattle.proc_values.specs.heap_texts.Texts.{HoldsText};
ghost use Rattle.bench_heap.specs.Scene.{AreHeld, AreLong};

use crate::pair::{Pair, pick};
use anyhow::{Result, bail};
use heap_ops::heap_places::value::Value;
use heap_ops::vectors::{get_element, make_vector};
use memory_vault::silent::SilentVault;
use proc_values::heap_texts::fault::OpFault;
use proc_values::heap_texts::make::make_text;
use proc_values::swizzle::fault::SwizzleFault;
use proc_values::swizzle::swizzle::Swizzle;
use std::alloc::Global;

/// Room for two vectors and the text of their type.
const WORDS: u32 = 100_000;

/// Two vectors, which aren't stored.
#[derive(Drop)]
struct Scene {
    sw: Swizzle,
    pair: Pair,
}

fn type_text(sw: &mut Swizzle) -> Result<u32, SwizzleFault>
    ensures { IfOk result (HoldsText sw.new) }
{
    make_text(sw, b"*int")
}

// A vector with 7 in each element, from 1 on.
fn sevens(sw: &mut Swizzle, ty: u32, size: u32) -> Result<u32, OpFault>
    requires { HoldsText sw.old ty }
    ensures held { IfOk result (IsHeld sw.new) }
    ensures stands { Stands sw.old sw.new }
{
    make_vector(sw, ty, 1, size.cast_signed(), Value::Num(7))
}

fn two_sevens(sw: &mut Swizzle, ty: u32, size: u32) -> Result<Pair, OpFault>
    requires { HoldsText sw.old ty }
    ensures { IfOk result (AreHeld sw.new) }
{
    let a = sevens(sw, ty, size)?;
    let b = sevens(sw, ty, size)?;
    Ok(Pair { a, b })
}

fn make_scene(alloc: Global, size: u32) -> Result<Scene>
    ensures { IfOk result (λ scene. AreHeld scene.sw scene.pair) }
{
    let mut sw = Swizzle::new(alloc, WORDS)?;
    let Ok(ty) = type_text(&mut sw) else {
        bail!("no room for the type");
    };
    let Ok(pair) = two_sevens(&mut sw, ty, size) else {
        bail!("no such vectors");
    };
    Ok(Scene { sw, pair })
}

/// Number words of vectors of so many elements, all 7, added up. Each tells which one is read next.
pub fn sum_numbers(alloc: Global, size: u32, calls: u32) -> Result<u64> {
    let Scene { sw, pair, .. } = make_scene(alloc, size)?;
    if sw.nums(pair.a) < 8 || sw.nums(pair.b) < 8 {
        bail!("too short");
    }
    Ok(sum_words(&sw, pair, calls))
}

fn sum_words(sw: &Swizzle, pair: Pair, calls: u32) -> u64
    requires { AreLong sw.now pair }
{
    let mut index = 2;
    let mut sum = 0u64;
    for _ in 0..calls {
        let word = read_number(sw, pair, sum, index);
        index = (word % 8) as u32;
        sum = sum.wrapping_add(word);
    }
    sum
}

#[inline]
fn read_number(sw: &Swizzle, pair: Pair, sum: u64, index: u32) -> u64
    requires long { AreLong sw.now pair }
    requires below { index < 8 }
{
    if sum % 2 == 0 {
        sw.num(pair.a, index)
    } else {
        sw.num(pair.b, index)
    }
}

#[inline]
fn read_element(scene: &mut Scene, sum: u64, at: i32) -> Option<i32>
    requires { AreHeld scene.old.sw scene.old.pair }
    ensures { IfSome result (λ value. AreHeld scene.new.sw scene.new.pair) }
{
    let vector = pick(&scene.sw, scene.pair, sum);
    match get_element(&mut scene.sw, &mut SilentVault { asked: 0 }, vector, at) {
        Ok(Value::Num(value)) => Some(value),
        _ => None,
    }
}

/// The elements of two vectors of so many, read in turn and added up; each is 7.
pub fn sum_elements(alloc: Global, size: u32, calls: u32) -> Result<u64> {
    let mut scene = make_scene(alloc, size)?;
    let last = size.cast_signed();
    let mut at = 0;
    let mut sum = 0u64;
    for _ in 0..calls {
        at = if at == last { 1 } else { at.wrapping_add(1) };
        match read_element(&mut scene, sum, at) {
            Some(value) => sum = sum.wrapping_add(u64::from(value.unsigned_abs())),
            None => bail!("no such element"),
        }
    }
    Ok(sum)
}
