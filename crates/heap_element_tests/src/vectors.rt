//! Vectors that are made, what is read of them and written to them, and their words.
ghost use Rattle.std.specs.Prelude.{IfOk, IfSome, OnOk};
ghost use Rattle.heap_ops.specs.swizzle.Heap.{IsHeld};
ghost use Rattle.heap_ops.specs.heap_texts.Texts.{HoldsText, StillTexts};
ghost use Rattle.heap_ops.specs.heap_places.Places.{IsNear};
ghost use Rattle.heap_ops.specs.heap_places.Filling.{AreNear};

use crate::area::{Area, WORDS, area_with};
use crate::near::all_near;
use heap_ops::heap_places::value::Value;
use heap_ops::heap_texts::fault::OpFault;
use heap_ops::swizzle::swizzle::Swizzle;
use heap_ops::vectors::{get_element, make_list, make_vector, set_element};
use memory_vault::silent::SilentVault;
use row_words::Words;
use std::alloc::Global;

/// A vector of one value so many times.
pub fn repeated(sw: &mut Swizzle, ty: u32, low: i32, high: i32, fill: Value) -> Result<u32, OpFault>
    requires text { HoldsText sw.old ty }
    requires near { IsNear sw.old fill }
    ensures there { IfOk result (IsHeld sw.new) }
{
    make_vector(sw, ty, low, high, fill)
}

/// A vector of these values.
pub fn listed(sw: &mut Swizzle, ty: u32, low: i32, items: &[Value]) -> Result<u32, OpFault>
    requires text { HoldsText sw.old ty }
    requires near { AreNear sw.old items.now }
    ensures there { IfOk result (IsHeld sw.new) }
    ensures stay { StillTexts sw.old sw.new }
{
    make_list(sw, ty, low, items)
}

/// A vector of a list in an area of its own.
#[derive(Drop)]
pub struct VectorArea {
    pub sw: Swizzle,
    pub ty: u32,
    pub vector: u32,
}

/// A vector of a list of the values that these words spell, whose type has this text. What the values denote must be that text.
pub fn vector_of(alloc: Global, text: &[u8], low: i32, words: Words<'_>) -> Option<VectorArea>
    ensures text { IfSome result (λ made. HoldsText made.sw made.ty) }
    ensures there { IfSome result (λ made. IsHeld made.sw made.vector) }
{
    let Area { mut sw, ty } = area_with(alloc, WORDS, text)?;
    let items = all_near(alloc, &sw, ty, words)?;
    match listed(&mut sw, ty, low, &items) {
        Ok(vector) => Some(VectorArea { sw, ty, vector }),
        Err(_) => None,
    }
}

/// The value of an element, where no object is fetched.
pub fn got(sw: &mut Swizzle, vector: u32, at: i32) -> Result<Value, OpFault>
    requires { IsHeld sw.old vector }
{
    get_element(sw, &mut SilentVault { asked: 0 }, vector, at)
}

/// Writes an element.
pub fn put(sw: &mut Swizzle, vector: u32, at: i32, to: Value) -> Result<(), OpFault>
    requires held { IsHeld sw.old vector }
    requires near { IsNear sw.old to }
    ensures { OnOk result (IsHeld sw.new vector) }
{
    set_element(sw, &mut SilentVault { asked: 0 }, vector, at, to)
}
