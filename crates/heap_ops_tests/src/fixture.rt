//! Areas with the text of a type, the vectors that are made there, and what is read of them.
ghost use Rattle.std.specs.Prelude.{◌≤◌, ◌^◌, IfOk, OnOk};
ghost use Rattle.heap_ops.specs.swizzle.Heap.{IsHeld};
ghost use Rattle.heap_ops.specs.heap_texts.Texts.{HoldsText, StillTexts};
ghost use Rattle.heap_ops.specs.heap_places.Places.{IsNear};
ghost use Rattle.heap_ops.specs.heap_places.Filling.{AreNear};

use heap_ops::heap_places::value::Value;
use heap_ops::heap_texts::fault::OpFault;
use heap_ops::heap_texts::make::make_text;
use heap_ops::swizzle::fault::SwizzleFault;
use heap_ops::swizzle::swizzle::Swizzle;
use heap_ops::vectors::{get_element, high, low, make_list, make_vector};
use memory_vault::silent::SilentVault;
use std::alloc::Global;
use std::process::Abort;
use std::test::Fail;

/// Room for the type's text and a vector.
pub const WORDS: u32 = 60;

/// Six words of the type's text, seven of the vector, and its most elements; and ten words more.
pub const WIDE: u32 = 6 + 7 + 1_048_576 + 10;

pub const SEVEN: Value = Value::Num(7);

pub const NIL: Value = Value::Ref(None);

/// What a vector of an area with six words that are taken returns.
#[derive(Clone, Copy)]
pub enum Top {
    /// It is made, and the area ends here.
    At(u32),
    /// Trap 3. The area ends where it did.
    Bounds,
    /// The area is full: so many words were wanted, of so many that it has. It ends where it did.
    Full(u32, u32),
}

/// An area with one text, which is at index 1.
#[derive(Drop)]
pub struct Area {
    pub sw: Swizzle,
    pub ty: u32,
}

/// A text in an area of so many words.
pub fn area_with(alloc: Global, words: u32, text: &[u8]) -> Result<Area, Fail>
    requires low { 5 ≤ words }
    requires high { words ≤ 2 ^ 25 }
    ensures { IfOk result (λ area. HoldsText area.sw area.ty) }
{
    let mut sw = Swizzle::new(alloc, words)?;
    match made(&mut sw, text) {
        Ok(ty) => Ok(Area { sw, ty }),
        Err(_) => Err("no room for the text".into()),
    }
}

// The call that makes a text.
fn made(sw: &mut Swizzle, bytes: &[u8]) -> Result<u32, SwizzleFault>
    ensures there { IfOk result (HoldsText sw.new) }
    ensures stay { StillTexts sw.old sw.new }
{
    make_text(sw, bytes)
}

/// A value whose object, if it denotes one, must be this text.
pub fn near(sw: &Swizzle, text: u32, value: Value) -> Result<Value, Fail>
    requires { HoldsText sw.now text }
    ensures { IfOk result (IsNear sw.now) }
{
    match value {
        Value::Ref(Some(at)) => {
            if at == text {
                Ok(value)
            } else {
                Err("no object there".into())
            }
        }
        _ => Ok(value),
    }
}

/// So many sevens.
pub fn sevens(alloc: Global, sw: &Swizzle, count: u32) -> Result<Vec<Value>, Fail>
    ensures { IfOk result (λ list. AreNear sw.now list.items) }
{
    let mut list = Vec::new(alloc);
    for _ in 0..count {
        add_seven(&mut list, sw)?;
    }
    Ok(list)
}

// Puts a seven after the others.
#[tactic(auto, using(crate::proofs::NearLaws::near_more))]
fn add_seven(list: &mut Vec<Value>, sw: &Swizzle) -> Result<(), Fail>
    requires { AreNear sw.now list.old.items }
    ensures { OnOk result (AreNear sw.now list.new.items) }
{
    list.push(SEVEN)?;
    Ok(())
}

/// A vector of one value so many times.
pub fn repeated(sw: &mut Swizzle, ty: u32, low: i32, high: i32, fill: Value) -> Result<u32, OpFault>
    requires text { HoldsText sw.old ty }
    requires near { IsNear sw.old fill }
    ensures there { IfOk result (IsHeld sw.new) }
{
    make_vector(sw, ty, low, high, fill)
}

/// A vector of these values.
pub fn listed(sw: &mut Swizzle, ty: u32, low: i32, items: &[Value]) -> Result<u32, OpFault>
    requires text { HoldsText sw.old ty }
    requires near { AreNear sw.old items.now }
    ensures there { IfOk result (IsHeld sw.new) }
    ensures stay { StillTexts sw.old sw.new }
{
    make_list(sw, ty, low, items)
}

/// The value of an element, where no object is fetched.
pub fn got(sw: &mut Swizzle, vector: u32, at: i32) -> Result<Value, OpFault>
    requires { IsHeld sw.old vector }
{
    get_element(sw, &mut SilentVault { asked: 0 }, vector, at)
}

/// The lower bound.
pub fn lower(sw: &mut Swizzle, vector: u32) -> Result<i32, SwizzleFault>
    requires { IsHeld sw.old vector }
    ensures { OnOk result (IsHeld sw.new vector) }
{
    low(sw, &mut SilentVault { asked: 0 }, vector)
}

/// The upper bound.
pub fn upper(sw: &mut Swizzle, vector: u32) -> Result<i32, SwizzleFault>
    requires { IsHeld sw.old vector }
{
    high(sw, &mut SilentVault { asked: 0 }, vector)
}

// Whether this was made, and the area ends so.
fn ends_so(made: Result<u32, OpFault>, end: u32, top: Top) -> bool {
    match (made, top) {
        (Ok(_), Top::At(at)) => end == at,
        (Err(OpFault::Trap(trap)), Top::Bounds) => trap as u32 == 3 && end == 7,
        (Err(OpFault::Swizzle(fault)), Top::Full(wanted, size)) => {
            let top = 7;
            end == top && fault == SwizzleFault::AreaFull { top, wanted, size }
        }
        _ => false,
    }
}

/// A vector of ints that all are one value: the words of the area, its bounds, the value, and what it returns.
pub struct Filled(pub u32, pub i32, pub i32, pub Value, pub Top);

fn is_filled(alloc: Global, row: &Filled) -> Result<bool, Fail> {
    let mut area = area_with(alloc, row.0.clamp(6, WIDE), b"*int")?;
    let fill = near(&area.sw, area.ty, row.3)?;
    let made = repeated(&mut area.sw, area.ty, row.1, row.2, fill);
    Ok(ends_so(made, area.sw.top(), row.4))
}

/// Ends the test where one comes to something else.
pub fn assert_filled(rt: &impl Abort, alloc: Global, rows: &[Filled]) -> Result<(), Fail> {
    for (place, row) in rows.iter().enumerate() {
        assert!(rt; is_filled(alloc, row)?, "row {place}");
    }
    Ok(())
}

/// A list of sevens: the words of the area, its lower bound, how many they are, and what it returns.
pub struct List(pub u32, pub i32, pub u32, pub Top);

fn is_list(alloc: Global, row: &List) -> Result<bool, Fail> {
    let mut area = area_with(alloc, row.0.clamp(6, WIDE), b"*int")?;
    let items = sevens(alloc, &area.sw, row.2)?;
    let made = listed(&mut area.sw, area.ty, row.1, &items);
    Ok(ends_so(made, area.sw.top(), row.3))
}

/// Ends the test where one comes to something else.
pub fn assert_lists(rt: &impl Abort, alloc: Global, rows: &[List]) -> Result<(), Fail> {
    for (place, row) in rows.iter().enumerate() {
        assert!(rt; is_list(alloc, row)?, "row {place}");
    }
    Ok(())
}
