//! Structures of int fields.
ghost use Rattle.std.specs.Prelude.{IfOk, IfSome};
ghost use Rattle.proc_values.specs.swizzle.Heap.{IsHeld, Stands};
ghost use Rattle.proc_values.specs.swizzle.Text.{text_at};
ghost use Rattle.proc_values.specs.heap_texts.Texts.{HoldsText};
ghost use Rattle.heap_ops.specs.Structures.{IsNamed};
ghost use Rattle.bench_heap.specs.Scene.{AreHeld, IsSet};

use crate::pair::{Pair, pick};
use anyhow::{Result, bail};
use heap_ops::heap_places::filling::make_repeated;
use heap_ops::heap_places::value::Value;
use heap_ops::structures::get_field;
use memory_vault::obj_layout::kind::Kind;
use memory_vault::silent::SilentVault;
use proc_values::heap_texts::make::make_text;
use proc_values::swizzle::fault::SwizzleFault;
use proc_values::swizzle::swizzle::Swizzle;
use proc_values::text_forms::forms::{Located, locate};
use std::alloc::{AllocError, Global};

/// Room for two structures of some thousand fields, and for the text of their class.
const WORDS: u32 = 100_000;

/// Two structures, their class, and the place of their last field.
#[derive(Drop)]
struct Scene {
    sw: Swizzle,
    class: u32,
    pair: Pair,
    located: Located,
}

// The text of a class with so many int fields.
fn class_text(alloc: Global, fields: u32) -> Result<Vec<u8>, AllocError> {
    let mut text = Vec::new(alloc);
    text.extend_from_slice(b"wide(int first")?;
    for _ in 1..fields {
        text.extend_from_slice(b";int more")?;
    }
    text.push(b')')?;
    Ok(text)
}

fn made(sw: &mut Swizzle, bytes: &[u8]) -> Result<u32, SwizzleFault>
    ensures { IfOk result (HoldsText sw.new) }
{
    make_text(sw, bytes)
}

// A structure with 7 in each field.
fn sevens(sw: &mut Swizzle, class: u32, fields: u32) -> Result<u32, SwizzleFault>
    requires { HoldsText sw.old class }
    ensures held { IfOk result (IsHeld sw.new) }
    ensures stands { Stands sw.old sw.new }
{
    make_repeated(sw, Kind::Structure, class, None, fields, Value::Num(7))
}

fn two_sevens(sw: &mut Swizzle, class: u32, fields: u32) -> Result<Pair, SwizzleFault>
    requires { HoldsText sw.old class }
    ensures held { IfOk result (AreHeld sw.new) }
    ensures class { HoldsText sw.new class }
{
    let a = sevens(sw, class, fields)?;
    let b = sevens(sw, class, fields)?;
    Ok(Pair { a, b })
}

fn make_scene(alloc: Global, fields: u32) -> Result<Scene>
    ensures { IfOk result IsSet }
{
    let mut sw = Swizzle::new(alloc, WORDS)?;
    let text = class_text(alloc, fields)?;
    let Ok(class) = made(&mut sw, &text) else {
        bail!("no room for the class");
    };
    let Ok(pair) = two_sevens(&mut sw, class, fields) else {
        bail!("no room for the structures");
    };
    let Some(located) = last_field(&sw, class, fields) else {
        bail!("no such field");
    };
    Ok(Scene {
        sw,
        class,
        pair,
        located,
    })
}

// The place of the last field.
fn last_field(sw: &Swizzle, class: u32, fields: u32) -> Option<Located>
    requires { HoldsText sw.now class }
    ensures { IfSome result (IsNamed (text_at sw.now class)) }
{
    locate(sw.text(class), fields.wrapping_sub(1))
}

#[inline]
fn read_field(scene: &mut Scene, sum: u64) -> Option<i32>
    requires { IsSet scene.old }
    ensures { IfSome result (λ value. IsSet scene.new) }
{
    let object = Some(pick(&scene.sw, scene.pair, sum));
    match get_field(
        &mut scene.sw,
        &mut SilentVault { asked: 0 },
        object,
        scene.class,
        scene.located,
    ) {
        Ok(Value::Num(value)) => Some(value),
        _ => None,
    }
}

/// The last fields of two structures of so many, read in turn and added up; each is 7.
pub fn sum_fields(alloc: Global, fields: u32, calls: u32) -> Result<u64> {
    let mut scene = make_scene(alloc, fields)?;
    sum_last(&mut scene, calls)
}

fn sum_last(scene: &mut Scene, calls: u32) -> Result<u64>
    requires { IsSet scene.old }
{
    let mut sum = 0u64;
    for _ in 0..calls {
        match read_field(scene, sum) {
            Some(value) => sum = sum.wrapping_add(u64::from(value.unsigned_abs())),
            None => bail!("no such field"),
        }
    }
    Ok(sum)
}
