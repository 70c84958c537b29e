//! Texts, and how many places they name in each row; the places of one; the elements of vectors.

use text_forms::forms::{Form, Located, Place, Rows, count_places, element_form, locate};

// No text here is longer.
const LONGEST: usize = 100;

#[test]
fn counts_places(rt: HostRuntime) {
    for (text, refs, nums) in [
        (b"person(string name;int age)".as_slice(), 1, 1),
        (b"empty()".as_slice(), 0, 0),
        (b"one(int n)".as_slice(), 0, 1),
        (b"pair(pntr left;pntr right)".as_slice(), 2, 0),
        (b"flags(bool a;bool b;bool c)".as_slice(), 0, 3),
        (
            b"scope(bool b;*int v;int integer;proc(int,bool->int) f)".as_slice(),
            2,
            2,
        ),
        (b"scope(proc() f)".as_slice(), 1, 0),
        (b"row(**int rows;*bool flags)".as_slice(), 2, 0),
        (b"row(proc(int,proc(int->bool)) f;int n)".as_slice(), 1, 1),
        (
            b"row(int a;string int;bool bool;pntr intern)".as_slice(),
            2,
            2,
        ),
        // Types that are none of the language's.
        (b"row(integer a;boolean b;Int c;int)".as_slice(), 4, 0),
        (b"row(void v;int n)".as_slice(), 1, 1),
        // No bracket, two of them, none that closes, text after it.
        (b"".as_slice(), 0, 0),
        (b"(".as_slice(), 0, 0),
        (b")".as_slice(), 0, 0),
        (b"person;int a;bool b".as_slice(), 0, 0),
        (b"row((int a;int b)".as_slice(), 1, 1),
        (b"row(int a;bool b".as_slice(), 0, 2),
        (b"row(int a);int b)".as_slice(), 0, 2),
        (b"row(int a;)".as_slice(), 0, 1),
        (b"row(;;)".as_slice(), 2, 0),
        (b"row(int a,int b)".as_slice(), 0, 1),
        (b"row(\xff\x00;int \xff;bool \x00)".as_slice(), 1, 2),
    ] {
        assert!(rt; text.len() < LONGEST);
        assert_eq!(rt; count_places(text), Rows { refs, nums });
    }
}

#[test]
fn locates_places(rt: HostRuntime) {
    let text = b"row(string a;int b;bool c;pntr d;*int e;int f;proc(int) g)".as_slice();
    assert!(rt; text.len() < LONGEST);
    let rows = Rows { refs: 4, nums: 3 };
    for (number, form, index) in [
        (0, Form::Reference, 0),
        (1, Form::Number, 0),
        (2, Form::Flag, 1),
        (3, Form::Reference, 1),
        (4, Form::Reference, 2),
        (5, Form::Number, 2),
        (6, Form::Reference, 3),
    ] {
        let place = Place { form, index };
        assert_eq!(rt; locate(text, number), Some(Located { place, rows }));
    }
    for number in [7, 8, 255, 256, 0x7fff_ffff, 0x8000_0000, 0xffff_ffff] {
        assert_eq!(rt; locate(text, number), None);
    }
}

#[test]
fn locates_nothing(rt: HostRuntime) {
    for text in [
        b"".as_slice(),
        b"empty()".as_slice(),
        b"person".as_slice(),
        b"*int".as_slice(),
        b"row(".as_slice(),
    ] {
        assert!(rt; text.len() < LONGEST);
        assert_eq!(rt; locate(text, 0), None);
    }
}

#[test]
fn tells_elements(rt: HostRuntime) {
    for (text, form) in [
        (b"*int".as_slice(), Form::Number),
        (b"*bool".as_slice(), Form::Flag),
        (b"*string".as_slice(), Form::Reference),
        (b"*pntr".as_slice(), Form::Reference),
        (b"**int".as_slice(), Form::Reference),
        (b"**bool".as_slice(), Form::Reference),
        (b"*proc(int->bool)".as_slice(), Form::Reference),
        (b"".as_slice(), Form::Reference),
        (b"int".as_slice(), Form::Reference),
        (b"*in".as_slice(), Form::Reference),
        (b"*int ".as_slice(), Form::Reference),
        (b"*boolean".as_slice(), Form::Reference),
        (b"*Int".as_slice(), Form::Reference),
    ] {
        assert_eq!(rt; element_form(text), form);
    }
}
