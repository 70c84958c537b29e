//! Bounds of vectors of one value and of lists at their edges.
ghost use Rattle.heap_ops.specs.swizzle.Heap.{IsHeld};

use crate::fixture::{
    Filled, List, SEVEN, Top, WORDS, area_with, assert_filled, assert_lists, lower, repeated, upper,
};
use heap_ops::heap_places::value::Value;
use heap_ops::swizzle::swizzle::Swizzle;
use std::alloc::Global;
use std::test::Fail;

const ZERO: Value = Value::Num(0);

static WRONG_BOUNDS: [Filled; 9] = [
    Filled(WORDS, 6, 5, ZERO, Top::Bounds),
    Filled(WORDS, 0, -1, ZERO, Top::Bounds),
    Filled(WORDS, i32::MIN + 1, i32::MIN, ZERO, Top::Bounds),
    Filled(WORDS, i32::MAX, i32::MIN, ZERO, Top::Bounds),
    Filled(WORDS, 1, 1_048_577, ZERO, Top::Bounds),
    Filled(WORDS, i32::MIN, i32::MIN + 1_048_576, ZERO, Top::Bounds),
    Filled(WORDS, i32::MAX - 1_048_576, i32::MAX, ZERO, Top::Bounds),
    Filled(WORDS, i32::MIN, i32::MAX, ZERO, Top::Bounds),
    Filled(WORDS, -1, i32::MAX, ZERO, Top::Bounds),
];

#[test]
fn makes_no_vectors_of_wrong_bounds(rt: HostRuntime) -> Result<(), Fail> {
    assert_filled(&rt, rt.alloc(), &WRONG_BOUNDS)
}

static WRONG_LISTS: [List; 4] = [
    List(WORDS, 1, 0, Top::Bounds),
    List(WORDS, i32::MIN, 0, Top::Bounds),
    List(WORDS, i32::MAX, 2, Top::Bounds),
    List(WORDS, i32::MAX - 1, 3, Top::Bounds),
];

#[test]
fn makes_no_vectors_of_wrong_lists(rt: HostRuntime) -> Result<(), Fail> {
    assert_lists(&rt, rt.alloc(), &WRONG_LISTS)
}

static BOUNDS: [(i32, i32); 6] = [
    (5, 6),
    (-3, 2),
    (0, 0),
    (i32::MIN, i32::MIN),
    (i32::MIN, i32::MIN + 1),
    (i32::MAX - 1, i32::MAX),
];

// Whether a vector tells these bounds.
fn tells(sw: &mut Swizzle, vector: u32, first: i32, last: i32) -> bool
    requires { IsHeld sw.old vector }
{
    match lower(sw, vector) {
        Ok(low) => low == first && upper(sw, vector) == Ok(last),
        Err(_) => false,
    }
}

// Whether a vector that is made of these bounds does.
fn bounds_hold(alloc: Global, first: i32, last: i32) -> Result<bool, Fail> {
    let mut area = area_with(alloc, WORDS, b"*int")?;
    match repeated(&mut area.sw, area.ty, first, last, SEVEN) {
        Ok(vector) => Ok(tells(&mut area.sw, vector, first, last)),
        Err(_) => Ok(false),
    }
}

#[test]
fn tells_the_bounds(rt: HostRuntime) -> Result<(), Fail> {
    for (first, last) in &BOUNDS {
        assert!(rt;
            bounds_hold(rt.alloc(), *first, *last)?,
            "{first} to {last}"
        );
    }
    Ok(())
}
