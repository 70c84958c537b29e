//! A unit with two texts and a literal, which has a text of its own; and what can be asked of an object.
ghost use Rattle.std.specs.Prelude.{◌≤◌, ◌^◌, IfOk, OnOk};
ghost use Rattle.proc_values.specs.swizzle.Heap.{IsHeld};

use memory_vault::obj_layout::kind::Kind;
use memory_vault::obj_layout::reference::Reference;
use memory_vault::silent::SilentVault;
use proc_values::load::load_unit;
use proc_values::reading::constant;
use proc_values::swizzle::fault::SwizzleFault;
use proc_values::swizzle::swizzle::Swizzle;
use ps_base::bytes::Bytes;
use ps_base::code_unit::{CodeUnit, Constant, Frame};
use ps_base::list::List;
use std::alloc::{AllocError, Global};
use std::test::Fail;

/// `text 0; closure 1; text 2; return 0`, in 20 bytes.
pub const OUTER: [u8; 20] = [4, 0, 0, 0, 0, 60, 1, 0, 0, 0, 4, 2, 0, 0, 0, 62, 0, 0, 0, 0];

/// `nil; return 2`, in 6 bytes.
pub const INNER: [u8; 6] = [5, 62, 2, 0, 0, 0];

pub fn bytes(alloc: Global, from: &[u8]) -> Result<Bytes, AllocError> {
    let mut items = Vec::new(alloc);
    items.extend_from_slice(from)?;
    Ok(Bytes::new(items))
}

// Puts a text after the constants.
fn push_text(alloc: Global, constants: &mut Vec<Constant>, text: &[u8]) -> Result<(), AllocError> {
    constants.push(Constant::Text(bytes(alloc, text)?))?;
    Ok(())
}

/// A unit whose constants are these texts.
pub fn with_texts(
    alloc: Global,
    code: &[u8],
    texts: &[&[u8]],
    frame: Frame,
) -> Result<CodeUnit, AllocError> {
    let mut constants = Vec::new(alloc);
    for text in texts {
        push_text(alloc, &mut constants, text)?;
    }
    unit(alloc, code, constants, frame)
}

fn unit(
    alloc: Global,
    code: &[u8],
    constants: Vec<Constant>,
    frame: Frame,
) -> Result<CodeUnit, AllocError> {
    Ok(CodeUnit {
        code: bytes(alloc, code)?,
        constants: List::new(constants),
        frame,
    })
}

/// A unit without constants and locals.
pub fn plain(alloc: Global, code: &[u8]) -> Result<CodeUnit, AllocError> {
    let frame = Frame {
        nums: 0,
        refs: 0,
        num_params: 0,
        ref_params: 0,
    };
    with_texts(alloc, code, &[], frame)
}

/// The unit that `docs/formats.md` lays out: `text 0; return 0`, in 10 bytes.
pub fn worked_out(alloc: Global) -> Result<CodeUnit, AllocError> {
    let frame = Frame {
        nums: 1,
        refs: 2,
        num_params: 0,
        ref_params: 1,
    };
    with_texts(alloc, &[4, 0, 0, 0, 0, 62, 0, 0, 0, 0], &[b"ab"], frame)
}

fn inner(alloc: Global) -> Result<CodeUnit, AllocError> {
    let frame = Frame {
        nums: 5,
        refs: 0,
        num_params: 0,
        ref_params: 65535,
    };
    with_texts(alloc, &INNER, &[b"x"], frame)
}

// Puts the constants of the outer unit after one another.
fn push_outer(alloc: Global, constants: &mut Vec<Constant>) -> Result<(), AllocError> {
    push_text(alloc, constants, b"ab")?;
    constants.push(Constant::of_unit(alloc, inner(alloc)?)?)?;
    push_text(alloc, constants, b"nine long")
}

pub fn outer(alloc: Global) -> Result<CodeUnit, AllocError> {
    let mut constants = Vec::new(alloc);
    push_outer(alloc, &mut constants)?;
    let frame = Frame {
        nums: 1,
        refs: 2,
        num_params: 3,
        ref_params: 4,
    };
    unit(alloc, &OUTER, constants, frame)
}

/// An area of so many words into which the unit was loaded.
pub fn loaded(alloc: Global, words: u32) -> Result<Swizzle, Fail>
    requires low { 5 ≤ words }
    requires high { words ≤ 2 ^ 25 }
    ensures { IfOk result (λ sw. IsHeld sw 28) }
{
    let unit = outer(alloc)?;
    let mut sw = Swizzle::new(alloc, words)?;
    match load_unit(&mut sw, &unit) {
        Ok(28) => Ok(sw),
        _ => Err("the place of the code object".into()),
    }
}

/// What the outer unit is answered in an area of so many words, and the top after that.
pub fn tried(alloc: Global, words: u32) -> Result<(Option<SwizzleFault>, u32), Fail>
    requires low { 5 ≤ words }
    requires high { words ≤ 2 ^ 25 }
{
    let unit = outer(alloc)?;
    let mut sw = Swizzle::new(alloc, words)?;
    match load_unit(&mut sw, &unit) {
        Ok(_) => Ok((None, sw.top())),
        Err(fault) => Ok((Some(fault), sw.top())),
    }
}

/// An area with the object of a unit that has this code.
pub fn with_code(alloc: Global, code: &[u8]) -> Result<Swizzle, Fail>
    ensures { IfOk result (λ sw. IsHeld sw 1) }
{
    let unit = plain(alloc, code)?;
    let mut sw = Swizzle::new(alloc, 50)?;
    match load_unit(&mut sw, &unit) {
        Ok(1) => Ok(sw),
        _ => Err("the place of the code object".into()),
    }
}

/// The object of a constant, where a vault has none.
pub fn read(sw: &mut Swizzle, code: u32, index: u32) -> Result<u32, SwizzleFault>
    requires { IsHeld sw.old code }
    ensures found { IfOk result (IsHeld sw.new) }
    ensures kept { OnOk result (IsHeld sw.new code) }
{
    let mut vault = SilentVault { asked: 0 };
    constant(sw, &mut vault, code, index)
}

/// The object's references are those to these objects of the area.
pub fn refers_to(sw: &Swizzle, object: u32, wanted: &[u32]) -> bool
    requires { IsHeld sw.now object }
{
    let count = sw.header(object).refs;
    if count as usize != wanted.len() {
        return false;
    }
    for slot in 0..count {
        if sw.peek(object, slot) != Reference::Local(wanted[slot as usize]) {
            return false;
        }
    }
    true
}

/// The object's number words are these.
pub fn counts(sw: &Swizzle, object: u32, wanted: &[u64]) -> bool
    requires { IsHeld sw.now object }
{
    let count = sw.header(object).nums;
    if count as usize != wanted.len() {
        return false;
    }
    for index in 0..count {
        if sw.num(object, index) != wanted[index as usize] {
            return false;
        }
    }
    true
}

/// The object is of this kind and has these bytes.
pub fn has(sw: &Swizzle, object: u32, kind: Kind, wanted: &[u8]) -> bool
    requires { IsHeld sw.now object }
{
    let header = sw.header(object);
    match header.kind {
        Kind::Text => kind == Kind::Text && sw.text(object) == wanted,
        Kind::Code => kind == Kind::Code && sw.text(object) == wanted,
        _ => false,
    }
}
