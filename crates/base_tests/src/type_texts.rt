//! The canonical texts of types and classes, and types that are the same.

use ps_base::bytes::Bytes;
use ps_base::ty::{Ty, procedure_of, vector_of};
use ps_type_text::{Member, class_text, same_type, type_text};
use std::alloc::{AllocError, Global};
use std::mem;
use std::test::Fail;

/// What makes a type, of those that were made before it.
#[derive(Clone, Copy)]
enum Make {
    Int,
    Bool,
    Str,
    Pntr,
    Void,
    /// Vectors of the last.
    Vector,
    /// Procedures that give the last and take those before it.
    Proc,
}

/// What makes a type, and its text.
type TypeRow = (&'static [Make], &'static [u8]);

const TYPES: [TypeRow; 10] = [
    (&[Make::Int], b"int"),
    (&[Make::Bool], b"bool"),
    (&[Make::Str], b"string"),
    (&[Make::Pntr], b"pntr"),
    (&[Make::Pntr, Make::Vector, Make::Vector], b"**pntr"),
    (
        &[Make::Int, Make::Str, Make::Bool, Make::Proc],
        b"proc(int,string->bool)",
    ),
    (&[Make::Int, Make::Proc], b"proc(->int)"),
    (&[Make::Void, Make::Proc], b"proc()"),
    (
        &[Make::Int, Make::Vector, Make::Void, Make::Proc],
        b"proc(*int)",
    ),
    (
        &[
            Make::Int,
            Make::Str,
            Make::Bool,
            Make::Proc,
            Make::Proc,
            Make::Vector,
        ],
        b"*proc(->proc(int,string->bool))",
    ),
];

// Types as they are made, and the text of each.
fn type_rows() -> &'static [TypeRow; 10] {
    &TYPES
}

fn last(types: &mut Vec<Ty>) -> Result<Ty, Fail> {
    Ok(types.pop().ok_or("no type")?)
}

fn next(alloc: Global, types: &mut Vec<Ty>, make: Make) -> Result<Ty, Fail> {
    match make {
        Make::Int => Ok(Ty::Int),
        Make::Bool => Ok(Ty::Bool),
        Make::Str => Ok(Ty::Str),
        Make::Pntr => Ok(Ty::Pntr),
        Make::Void => Ok(Ty::Void),
        Make::Vector => Ok(vector_of(alloc, last(types)?)?),
        Make::Proc => {
            let gives = last(types)?;
            let takes = mem::replace(types, Vec::new(alloc));
            Ok(procedure_of(alloc, takes, gives)?)
        }
    }
}

fn made(alloc: Global, makes: &[Make]) -> Result<Ty, Fail> {
    let mut types = Vec::new(alloc);
    for make in makes {
        let ty = next(alloc, &mut types, *make)?;
        types.push(ty)?;
    }
    last(&mut types)
}

// Whether the type has this text.
fn has_text(alloc: Global, ty: &Ty, wanted: &[u8]) -> bool {
    match type_text(alloc, ty) {
        Ok(text) => text.as_slice() == wanted,
        Err(_) => false,
    }
}

// Whether the type of a row is made, with its text.
fn row_holds(alloc: Global, (makes, text): &TypeRow) -> Result<bool, Fail> {
    let ty = made(alloc, makes)?;
    Ok(has_text(alloc, &ty, text))
}

#[test]
fn types_have_their_texts(rt: HostRuntime) -> Result<(), Fail> {
    for row in type_rows() {
        assert!(rt; row_holds(rt.alloc(), row)?);
    }
    Ok(())
}

// Whether the types that are made so are the same.
fn make_the_same(alloc: Global, makes: &[Make], others: &[Make]) -> Result<bool, Fail> {
    let ty = made(alloc, makes)?;
    let other = made(alloc, others)?;
    Ok(same_type(&ty, &other))
}

// Whether the type that is made so is the same as that of this row alone.
fn is_alone(alloc: Global, place: usize, makes: &[Make]) -> Result<bool, Fail> {
    for (other_place, (others, _)) in type_rows().iter().enumerate() {
        if make_the_same(alloc, makes, others)? != (place == other_place) {
            return Ok(false);
        }
    }
    Ok(true)
}

#[test]
fn only_one_type_is_the_same(rt: HostRuntime) -> Result<(), Fail> {
    for (place, (makes, _)) in type_rows().iter().enumerate() {
        assert!(rt; is_alone(rt.alloc(), place, makes)?);
    }
    Ok(())
}

// A vector of vectors, so many levels deep.
fn nested(alloc: Global, levels: u32) -> Result<Ty, AllocError> {
    let mut ty = Ty::Int;
    for _ in 0..levels {
        ty = vector_of(alloc, ty)?;
    }
    Ok(ty)
}

const LEVELS: u32 = 200_000;

// Whether a type has the text of so many levels.
fn has_nested_text(alloc: Global, ty: &Ty) -> bool {
    match type_text(alloc, ty) {
        Ok(text) => text.as_slice().ends_with(b"**int") && text.as_slice().len() == 200_003,
        Err(_) => false,
    }
}

// Whether a type is the vector of vectors so many levels deep.
fn is_nested(alloc: Global, ty: &Ty, levels: u32) -> Result<bool, AllocError> {
    let other = nested(alloc, levels)?;
    Ok(same_type(ty, &other))
}

#[test]
fn vectors_of_vectors_have_no_limit(rt: HostRuntime) -> Result<(), Fail> {
    let ty = nested(rt.alloc(), LEVELS)?;
    assert!(rt; has_nested_text(rt.alloc(), &ty));
    assert!(rt; is_nested(rt.alloc(), &ty, LEVELS)?);
    assert!(rt; !is_nested(rt.alloc(), &ty, LEVELS - 1)?);
    Ok(())
}

fn member(alloc: Global, ty: Ty, name: &str) -> Result<Member, AllocError> {
    let name = Bytes::new(Vec::from_slice(alloc, name.as_bytes())?);
    Ok(Member { ty, name })
}

fn members(alloc: Global) -> Result<Vec<Member>, AllocError> {
    let mut fields = Vec::with_capacity(alloc, 2)?;
    fields.push(member(alloc, Ty::Int, "n")?)?;
    fields.push(member(alloc, Ty::Pntr, "next")?)?;
    Ok(fields)
}

// Whether the class of this name and these fields has this text.
fn class_has_text(alloc: Global, name: &[u8], fields: &[Member], wanted: &[u8]) -> bool {
    match class_text(alloc, name, fields) {
        Ok(text) => text.as_slice() == wanted,
        Err(_) => false,
    }
}

#[test]
fn classes_have_their_texts(rt: HostRuntime) -> Result<(), Fail> {
    let alloc = rt.alloc();
    let fields = members(alloc)?;
    assert!(rt; class_has_text(alloc, b"none", &[], b"none()"));
    assert!(rt; class_has_text(alloc, b"link", &fields, b"link(int n;pntr next)"));
    Ok(())
}
