//! Programs at the limits: parameters, names, widths, and areas that code and strings fill.

use crate::command_tests::{Limit, declarations, is_answered, is_limit};
use command_answers::Command;
use std::alloc::{AllocError, Global};
use std::test::Fail;

// The names of so many parameters, or as many arguments from 0 on.
fn listed(alloc: Global, first: &[u8], name: &[u8], count: usize) -> Result<Vec<u8>, AllocError> {
    let mut text = Vec::from_slice(alloc, first)?;
    for place in 0..count {
        if place > 0 {
            text.extend_from_slice(b", ")?;
        }
        text.extend_from_slice(name)?;
        text.push(b"0123456789"[place / 10 % 10])?;
        text.push(b"0123456789"[place % 10])?;
    }
    Ok(text)
}

// A procedure of so many parameters, given on as a value of its type, and called.
fn with_parameters(alloc: Global, count: usize) -> Result<Vec<u8>, AllocError> {
    let mut text = listed(alloc, b"let f = proc(int ", b"a", count)?;
    text.extend_from_slice(b" -> int); 100 * a01 + a63\nlet g := f\nwrite g(")?;
    text.extend_from_slice(&listed(alloc, b"", b"", count)?)?;
    text.push(b')')?;
    Ok(text)
}

const PARAMETERS: [Limit; 2] = [(64, b"163", 0), (65, b"x.ps: check 6 at line 1\n", 2)];

fn have_parameters(alloc: Global, limit: &Limit) -> bool {
    is_limit(alloc, with_parameters(alloc, limit.0), limit)
}

#[test]
fn procedures_have_parameters_to_the_limit(rt: HostRuntime) {
    for limit in &PARAMETERS {
        assert!(rt; have_parameters(rt.alloc(), limit));
    }
}

// A procedure that declares so many names, and is called.
fn with_names(alloc: Global, count: usize) -> Result<Vec<u8>, AllocError> {
    let mut text = Vec::from_slice(alloc, b"write 1\nprocedure f()\n{ ")?;
    text.extend_from_slice(&declarations(alloc, count)?)?;
    text.extend_from_slice(b"}\nf()")?;
    Ok(text)
}

const NAMES: [Limit; 2] = [(511, b"1", 0), (512, b"x.ps: check 7 at line 2\n", 2)];

fn declare_names(alloc: Global, limit: &Limit) -> bool {
    is_limit(alloc, with_names(alloc, limit.0), limit)
}

#[test]
fn procedures_declare_names_to_the_limit(rt: HostRuntime) {
    for limit in &NAMES {
        assert!(rt; declare_names(rt.alloc(), limit));
    }
}

// So many ones, written one by one: 14 bytes of code for each, and 5 after the last.
fn ones(alloc: Global, count: usize) -> Result<Vec<u8>, AllocError> {
    let mut text = Vec::from_slice(alloc, b"write 1")?;
    for _ in 1..count {
        text.extend_from_slice(b", 1")?;
    }
    Ok(text)
}

// A string of so many bytes, written.
fn string_of(alloc: Global, count: usize) -> Result<Vec<u8>, AllocError> {
    let mut text = Vec::from_slice(alloc, b"write \"")?;
    for _ in 0..count {
        text.push(b'a')?;
    }
    text.push(b'"')?;
    Ok(text)
}

// Whether a text gets this output and this status in an area of 128 words.
fn is_answered_in_an_area(alloc: Global, text: &[u8], told: &[u8], status: u8) -> bool {
    let run = Command {
        words: &["run", "v.vol", "--area", "1"],
        last: "x.ps",
        texts: &[("x.ps", text)],
    };
    run.is_answered(alloc, &[], told, status)
}

// An area of 128 words has room for the text of the type, which has 6, and for a code of 122: 4 of its header, 3 more, and 115 for
// at most 920 bytes. A string of 1,000 bytes takes 130.
#[test]
fn code_and_strings_fill_an_area(rt: HostRuntime) -> Result<(), Fail> {
    let text = ones(rt.alloc(), 65)?;
    assert!(rt; is_answered_in_an_area(rt.alloc(), &text, &[b'1'; 65], 0));
    let text = ones(rt.alloc(), 66)?;
    let full = b"area full: 7 + 124 > 129 words\n";
    assert!(rt; is_answered_in_an_area(rt.alloc(), &text, full, 11));
    let text = string_of(rt.alloc(), 1_000)?;
    let full = b"area full: 7 + 130 > 129 words\n";
    assert!(rt; is_answered_in_an_area(rt.alloc(), &text, full, 11));
    Ok(())
}

// Whether a string at the widest gets as many bytes output.
fn is_widest(alloc: Global) -> Result<bool, AllocError> {
    let mut told = vec![in alloc; b' '; 65_534]?;
    told.push(b'x')?;
    Ok(is_answered(alloc, b"write \"x\" : 65535", &told, 0))
}

#[test]
fn widths_go_to_the_limit(rt: HostRuntime) {
    assert!(rt; is_widest(rt.alloc()) == Ok(true));
}
