//! Areas with texts that the tests begin with, and what is read of them.
ghost use Rattle.std.specs.Prelude.{◌≤◌, ◌^◌, IfOk};
ghost use Rattle.text_ops.specs.heap_texts.Texts.{HoldsText, StillTexts};

use std::alloc::Global;
use std::cmp::Ordering;
use std::test::Fail;
use text_ops::heap_texts::fault::OpFault;
use text_ops::heap_texts::make::make_text;
use text_ops::operators::{compare, int_text, join, part};
use text_ops::swizzle::fault::SwizzleFault;
use text_ops::swizzle::swizzle::Swizzle;

/// An area with two texts.
#[derive(Drop)]
pub struct TwoTexts {
    pub sw: Swizzle,
    pub a: u32,
    pub b: u32,
}

/// Two texts in an area of so many words.
pub fn two_texts(alloc: Global, words: u32, a: &[u8], b: &[u8]) -> Result<TwoTexts, Fail>
    requires low { 5 ≤ words }
    requires high { words ≤ 2 ^ 25 }
    ensures a { IfOk result (λ two. HoldsText two.sw two.a) }
    ensures b { IfOk result (λ two. HoldsText two.sw two.b) }
{
    let mut sw = Swizzle::new(alloc, words)?;
    let a = text(&mut sw, a)?;
    let b = text(&mut sw, b)?;
    Ok(TwoTexts { sw, a, b })
}

/// A text more.
pub fn text(sw: &mut Swizzle, bytes: &[u8]) -> Result<u32, Fail>
    ensures there { IfOk result (HoldsText sw.new) }
    ensures stay { StillTexts sw.old sw.new }
{
    match made(sw, bytes) {
        Ok(at) => Ok(at),
        Err(_) => Err("no room for the text".into()),
    }
}

// The call that makes a text.
fn made(sw: &mut Swizzle, bytes: &[u8]) -> Result<u32, SwizzleFault>
    ensures there { IfOk result (HoldsText sw.new) }
    ensures stay { StillTexts sw.old sw.new }
{
    make_text(sw, bytes)
}

/// One text after the other.
pub fn joined(sw: &mut Swizzle, a: u32, b: u32) -> Result<u32, OpFault>
    requires a { HoldsText sw.old a }
    requires b { HoldsText sw.old b }
    ensures there { IfOk result (HoldsText sw.new) }
    ensures stay { StillTexts sw.old sw.new }
{
    join(sw, a, b)
}

/// A part of a text.
pub fn parted(sw: &mut Swizzle, a: u32, from: i32, count: i32) -> Result<u32, OpFault>
    requires { HoldsText sw.old a }
    ensures there { IfOk result (HoldsText sw.new) }
    ensures stay { StillTexts sw.old sw.new }
{
    part(sw, a, from, count)
}

/// The text of an int.
pub fn told(sw: &mut Swizzle, value: i32) -> Result<u32, SwizzleFault>
    ensures there { IfOk result (HoldsText sw.new) }
{
    int_text(sw, value)
}

/// How two texts compare.
pub fn compared(sw: &Swizzle, a: u32, b: u32) -> Ordering
    requires a { HoldsText sw.now a }
    requires b { HoldsText sw.now b }
{
    compare(sw, a, b)
}

/// The bytes of a text.
pub fn bytes(sw: &Swizzle, at: u32) -> &[u8]
    requires { HoldsText sw.now at }
{
    sw.text(at)
}

/// The number word at `index`, if there is one.
pub fn word(sw: &Swizzle, at: u32, index: u32) -> Option<u64>
    requires { HoldsText sw.now at }
{
    if index < sw.header(at).nums {
        Some(sw.num(at, index))
    } else {
        None
    }
}

/// So many bytes that differ from one to the next.
pub fn long(alloc: Global, count: u32) -> Result<Vec<u8>, Fail> {
    let mut bytes = Vec::new(alloc);
    let mut byte = 0u8;
    for _ in 0..count {
        bytes.push(byte)?;
        byte = byte.wrapping_add(7);
    }
    Ok(bytes)
}
