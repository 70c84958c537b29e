//! What the strict reading answers of texts, and how deep types of procedures may stand inside one another.

use std::alloc::{AllocError, Global};
use std::test::Fail;
use text_forms::forms::Form;
use text_forms::strict::{DEEPEST, form_at};

// No text here is longer.
const LONGEST: usize = 2000;

#[test]
fn reads_texts(rt: HostRuntime) {
    for (text, number, form) in [
        (
            b"person(string name;int age)".as_slice(),
            0,
            Form::Reference,
        ),
        (b"person(string name;int age)".as_slice(), 1, Form::Number),
        (b"p(bool b)".as_slice(), 0, Form::Flag),
        (b"P2.x(int a.1;pntr B)".as_slice(), 1, Form::Reference),
        (
            b"scope(int n;string s;*int v)".as_slice(),
            2,
            Form::Reference,
        ),
        (b"p(proc() f;int n)".as_slice(), 1, Form::Number),
        (b"p(proc(->int) f)".as_slice(), 0, Form::Reference),
        (
            b"p(proc(int,proc(*int->**bool)->pntr) f;bool b)".as_slice(),
            1,
            Form::Flag,
        ),
        (b"*int".as_slice(), 0, Form::Number),
        (b"*bool".as_slice(), 0, Form::Flag),
        (b"**int".as_slice(), 0, Form::Reference),
        (b"*proc(->int)".as_slice(), 0, Form::Reference),
    ] {
        assert!(rt; text.len() < LONGEST);
        assert_eq!(rt; form_at(text, number), Some(form));
    }
}

#[test]
fn refuses_numbers(rt: HostRuntime) {
    for (text, number) in [
        (b"person(string name;int age)".as_slice(), 2),
        (b"person(string name;int age)".as_slice(), 0xffff_ffff),
        (b"empty()".as_slice(), 0),
        (b"*int".as_slice(), 1),
    ] {
        assert!(rt; text.len() < LONGEST);
        assert_eq!(rt; form_at(text, number), None);
    }
}

#[test]
fn refuses_texts(rt: HostRuntime) {
    for text in [
        b"".as_slice(),
        b"int".as_slice(),
        // Names.
        b"(int a)".as_slice(),
        b"1p(int a)".as_slice(),
        b".p(int a)".as_slice(),
        b"p q(int a)".as_slice(),
        b"p(int )".as_slice(),
        b"p(int 1a)".as_slice(),
        b"p(int a_b)".as_slice(),
        b"p(int \xc3)".as_slice(),
        // Marks.
        b"p".as_slice(),
        b"p(".as_slice(),
        b"p(int a".as_slice(),
        b"p(int a;)".as_slice(),
        b"p(;int a)".as_slice(),
        b"p(int a,int b)".as_slice(),
        b"p(int a);".as_slice(),
        b"p(int a))".as_slice(),
        b"p(int  a)".as_slice(),
        b"p(int)".as_slice(),
        // Types.
        b"p(integer a)".as_slice(),
        b"p(Int a)".as_slice(),
        b"p(void a)".as_slice(),
        b"p(*void a)".as_slice(),
        b"p(* a)".as_slice(),
        b"p(proc a)".as_slice(),
        b"p(proc( a)".as_slice(),
        b"p(proc(,int) f)".as_slice(),
        b"p(proc(int,) f)".as_slice(),
        b"p(proc(void) f)".as_slice(),
        b"p(proc(->void) f)".as_slice(),
        b"p(proc(->) f)".as_slice(),
        b"p(proc(->int,int) f)".as_slice(),
        // Vectors.
        b"*".as_slice(),
        b"*int ".as_slice(),
        b"*void".as_slice(),
        b"int*".as_slice(),
        b"*p(int a)".as_slice(),
    ] {
        assert!(rt; text.len() < LONGEST);
        assert_eq!(rt; form_at(text, 0), None);
    }
}

#[test]
fn reads_to_a_depth(rt: HostRuntime) -> Result<(), Fail> {
    for (depth, form) in [
        (1, Some(Form::Reference)),
        (DEEPEST, Some(Form::Reference)),
        (DEEPEST + 1, None),
        (DEEPEST + 100, None),
    ] {
        let text = nested(rt.alloc(), depth)?;
        assert!(rt; text.len() < LONGEST);
        assert_eq!(rt; form_at(text.as_slice(), 0), form);
    }
    Ok(())
}

// A vector of procedures, each with a parameter that is one, so deep.
fn nested(alloc: Global, depth: u32) -> Result<Vec<u8>, AllocError> {
    let mut text = Vec::new(alloc);
    text.extend_from_slice(b"*")?;
    for _ in 0..depth {
        text.extend_from_slice(b"proc(")?;
    }
    for _ in 0..depth {
        text.extend_from_slice(b")")?;
    }
    Ok(text)
}
