//! Inputs and lines at the limits.

use command_answers::Command;
use std::alloc::{AllocError, Global};

/// The words before the program's name, where it reads the file `in`.
pub const READ: &[&str] = &["run", "v.vol", "--input", "in"];

// A program that reads its input, by these words, and what it gets output.
#[derive(Clone, Copy)]
struct Reading<'a> {
    words: &'a [&'a str],
    text: &'a str,
    told: &'a str,
    status: u8,
}

impl Reading<'_> {
    // Whether it is answered so with this input.
    fn is_answered(&self, alloc: Global, input: &[u8]) -> bool {
        let command = Command {
            words: self.words,
            last: "x.ps",
            texts: &[("x.ps", self.text.as_bytes()), ("in", input)],
        };
        command.is_answered(alloc, &[], self.told.as_bytes(), self.status)
    }

    // The same with an input, unless there was no memory for it.
    fn is_answered_over(&self, alloc: Global, input: Result<Vec<u8>, AllocError>) -> bool {
        match input {
            Ok(input) => self.is_answered(alloc, &input),
            Err(_) => false,
        }
    }
}

// So many bytes, and what stands after them.
fn bytes(alloc: Global, count: usize, behind: &[u8]) -> Result<Vec<u8>, AllocError> {
    let mut text = vec![in alloc; b'a'; count]?;
    text.extend_from_slice(behind)?;
    Ok(text)
}

// How many bytes the first line has, and what stands after them; what a program that reads two lines tells, and its status.
static LONG: [(usize, &[u8], &str, u8); 5] = [
    (65_535, b"\nnext", "65535 next", 0),
    (65_536, b"\nnext", "trap 10 at line 1\n", 3),
    (65_536, b"", "trap 10 at line 1\n", 3),
    (65_535, b"", "65535 trap 11 at line 2\n", 3),
    (1_048_577, b"", "in: 1048577 bytes, at most 1048576\n", 13),
];

// Two lines are read from an input of this row.
fn is_long(alloc: Global, row: &(usize, &[u8], &str, u8)) -> bool {
    let reading = Reading {
        words: READ,
        text: "write length(read.a.line()), \" \"\nwrite read.a.line()",
        told: row.2,
        status: row.3,
    };
    reading.is_answered_over(alloc, bytes(alloc, row.0, row.1))
}

#[test]
fn lines_have_bytes_to_the_limit(rt: HostRuntime) {
    for (place, row) in LONG.iter().enumerate() {
        assert!(rt; is_long(rt.alloc(), row), "row {place}");
    }
}

// So many lines like this one.
fn lines(alloc: Global, line: &[u8], count: usize) -> Result<Vec<u8>, AllocError> {
    let mut text = Vec::new(alloc);
    for _ in 0..count {
        text.extend_from_slice(line)?;
    }
    Ok(text)
}

const COUNTING: Reading<'static> = Reading {
    words: READ,
    text: "let n := 0\nwhile ~ eof() do n := n + length(read.a.line())\nwrite n",
    told: "917504",
    status: 0,
};

// An input of as many bytes as it may have, in lines of 7.
#[test]
fn inputs_have_bytes_to_the_limit(rt: HostRuntime) {
    let input = lines(rt.alloc(), b"1234567\n", 131_072);
    assert!(rt; COUNTING.is_answered_over(rt.alloc(), input));
}

const FILLING: Reading<'static> = Reading {
    words: &["run", "v.vol", "--area", "1", "--input", "in"],
    text: "while ~ eof() do { let s = read.a.line(); write \".\" }",
    told: "................area full: 124 + 6 > 129 words\n",
    status: 11,
};

// Lines of 6 words each: the constants and the code of the program take 27.
#[test]
fn lines_fill_an_area(rt: HostRuntime) {
    let input = lines(rt.alloc(), b"abcdefgh\n", 20);
    assert!(rt; FILLING.is_answered_over(rt.alloc(), input));
}
