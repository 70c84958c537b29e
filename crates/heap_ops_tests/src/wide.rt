//! Vectors of the most elements, and what a full area answers.
ghost use Rattle.heap_ops.specs.swizzle.Heap.{IsHeld};

use crate::fixture::{
    Filled, List, NIL, SEVEN, Top, WIDE, area_with, assert_filled, assert_lists, got, near,
    repeated,
};
use heap_ops::heap_places::value::Value;
use heap_ops::swizzle::swizzle::Swizzle;
use std::alloc::Global;
use std::test::Fail;

// The text of the type of a vector, its bounds, and the value of its elements.
struct Longest<'a>(&'a [u8], i32, i32, Value);

static LONGEST: [Longest<'static>; 4] = [
    Longest(b"*int", 1, 1_048_576, SEVEN),
    Longest(b"*string", -1, 1_048_574, NIL),
    Longest(b"*bool", i32::MIN, i32::MIN + 1_048_575, Value::Flag(true)),
    Longest(b"*int", i32::MAX - 1_048_575, i32::MAX, SEVEN),
];

// Whether an element of a vector is this.
fn holds(sw: &mut Swizzle, vector: u32, at: i32, value: Value) -> bool
    requires { IsHeld sw.old vector }
{
    match got(sw, vector, at) {
        Ok(found) => found == value,
        Err(_) => false,
    }
}

// Whether the vector is made, and its last element is the value.
fn is_longest(alloc: Global, row: &Longest<'_>) -> Result<bool, Fail> {
    let mut area = area_with(alloc, WIDE, row.0)?;
    let fill = near(&area.sw, area.ty, row.3)?;
    match repeated(&mut area.sw, area.ty, row.1, row.2, fill) {
        Ok(vector) => { Ok(area.sw.top() == WIDE - 9 && holds(&mut area.sw, vector, row.2, row.3)) }
        Err(_) => Ok(false),
    }
}

#[test]
fn makes_the_longest_vectors(rt: HostRuntime) -> Result<(), Fail> {
    for (place, row) in LONGEST.iter().enumerate() {
        assert!(rt; is_longest(rt.alloc(), row)?, "row {place}");
    }
    Ok(())
}

static LONGER: [Filled; 4] = [
    Filled(WIDE, 1, 1_048_577, SEVEN, Top::Bounds),
    Filled(WIDE, -1, 1_048_575, SEVEN, Top::Bounds),
    Filled(WIDE, i32::MIN, i32::MIN + 1_048_576, SEVEN, Top::Bounds),
    Filled(WIDE, i32::MAX - 1_048_576, i32::MAX, SEVEN, Top::Bounds),
];

#[test]
fn makes_none_that_is_longer(rt: HostRuntime) -> Result<(), Fail> {
    assert_filled(&rt, rt.alloc(), &LONGER)
}

static LISTS: [List; 2] = [
    List(WIDE, 1, 1_048_576, Top::At(1_048_590)),
    List(WIDE, 1, 1_048_577, Top::Bounds),
];

#[test]
fn makes_the_longest_lists(rt: HostRuntime) -> Result<(), Fail> {
    assert_lists(&rt, rt.alloc(), &LISTS)
}

// A list takes seven words and one for each element. Its bounds are tested before the room.
static FULL_OF_LISTS: [List; 9] = [
    List(15, 1, 2, Top::At(16)),
    List(14, 1, 2, Top::Full(9, 15)),
    List(6, 1, 1, Top::Full(8, 7)),
    List(6, 1, 6, Top::Full(13, 7)),
    List(6, 1, 7, Top::Full(14, 7)),
    List(6, 1, 100, Top::Full(107, 7)),
    List(13, 1, 1_048_576, Top::Full(1_048_583, 14)),
    List(6, 1, 0, Top::Bounds),
    List(6, 1, 1_048_577, Top::Bounds),
];

#[test]
fn answers_lists_without_room(rt: HostRuntime) -> Result<(), Fail> {
    assert_lists(&rt, rt.alloc(), &FULL_OF_LISTS)
}

// The same of vectors of sevens, and of nil.
static FULL_OF_VECTORS: [Filled; 10] = [
    Filled(15, 1, 2, SEVEN, Top::At(16)),
    Filled(14, 1, 2, SEVEN, Top::Full(9, 15)),
    Filled(6, 1, 1, SEVEN, Top::Full(8, 7)),
    Filled(6, 1, 7, SEVEN, Top::Full(14, 7)),
    Filled(13, 1, 1_048_576, SEVEN, Top::Full(1_048_583, 14)),
    Filled(15, 1, 2, NIL, Top::At(16)),
    Filled(14, 1, 2, NIL, Top::Full(9, 15)),
    Filled(6, 1, 1, NIL, Top::Full(8, 7)),
    Filled(6, 1, 7, NIL, Top::Full(14, 7)),
    Filled(13, 1, 1_048_576, NIL, Top::Full(1_048_583, 14)),
];

#[test]
fn answers_vectors_without_room(rt: HostRuntime) -> Result<(), Fail> {
    assert_filled(&rt, rt.alloc(), &FULL_OF_VECTORS)
}
