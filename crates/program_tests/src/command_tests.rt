//! The command from its words to its status.

use command_answers::Command;
use command_answers::ps_args::{FORMAT_HELP, HELP, RUN_HELP, VERSION};
use std::alloc::{AllocError, Global};

/// The words of a run without options, before the name of its text.
pub const RUN: &[&str] = &["run", "v.vol"];

/// Whether a run of this text gets this output, and this status.
pub fn is_answered(alloc: Global, text: &[u8], told: &[u8], status: u8) -> bool {
    let run = Command {
        words: RUN,
        last: "x.ps",
        texts: &[("x.ps", text)],
    };
    run.is_answered(alloc, &[], told, status)
}

/// A number of parts that a text is made of, what it gets output, and its status.
pub type Limit = (usize, &'static [u8], u8);

/// Whether the text that is made of so many parts is answered so; not so where there was no memory for it.
pub fn is_limit(alloc: Global, text: Result<Vec<u8>, AllocError>, limit: &Limit) -> bool {
    match text {
        Ok(text) => is_answered(alloc, &text, limit.1, limit.2),
        Err(_) => false,
    }
}

/// So many declarations, each with a `;` after it.
pub fn declarations(alloc: Global, count: usize) -> Result<Vec<u8>, AllocError> {
    let mut text = Vec::new(alloc);
    for place in 0..count {
        text.extend_from_slice(b"let a")?;
        for digit in [place / 100, place / 10, place] {
            text.push(b"0123456789"[digit % 10])?;
        }
        text.extend_from_slice(b" = 0;")?;
    }
    Ok(text)
}

const DECLARED: [Limit; 2] = [(511, b"", 0), (512, b"x.ps: check 7 at line 1\n", 2)];

fn are_declared(alloc: Global, limit: &Limit) -> bool {
    is_limit(alloc, declarations(alloc, limit.0), limit)
}

#[test]
fn names_are_declared_to_the_limit(rt: HostRuntime) {
    for limit in &DECLARED {
        assert!(rt; are_declared(rt.alloc(), limit));
    }
}

#[test]
fn comments_hold_any_byte(rt: HostRuntime) {
    assert!(rt; is_answered(rt.alloc(), b"! \xc8\nwrite 1", b"1", 0));
}

const LONG_NAME: &[u8] = &[b'a'; 65];

const OPEN: &[u8] = &[b'{'; 100];

const TOO_DEEP: &[u8] = &[b'{'; 101];

static FIRST_FAULTS: [(&[u8], &[u8]); 24] = [
    (b"\xc8", b"x.ps: scan 1 at line 1\n"),
    (b"write \"a", b"x.ps: scan 2 at line 1\n"),
    (b"write\n2147483648", b"x.ps: scan 3 at line 2\n"),
    (b"write \"a'q\"", b"x.ps: scan 4 at line 1\n"),
    (LONG_NAME, b"x.ps: scan 5 at line 1\n"),
    (b"let x =", b"x.ps: parse 1 at line 1\n"),
    (OPEN, b"x.ps: parse 1 at line 1\n"),
    (TOO_DEEP, b"x.ps: parse 2 at line 1\n"),
    (b"\nwrite a", b"x.ps: check 1 at line 2\n"),
    (b"let a = 1\nlet a = 2", b"x.ps: check 2 at line 2\n"),
    (b"write 1\n(2)", b"x.ps: check 3 at line 2\n"),
    (b"let a = 1; a := 2", b"x.ps: check 4 at line 1\n"),
    (b"write 1\nwrite length", b"x.ps: check 5 at line 2\n"),
    (b"write true\n:\ntrue", b"x.ps: check 3 at line 3\n"),
    (b"for i = 1 to 2 do\ni := 2", b"x.ps: check 4 at line 2\n"),
    (
        b"write 1;\nlet f = proc(); {}; write b",
        b"x.ps: check 1 at line 2\n",
    ),
    (b"write b\nprocedure f(); {}", b"x.ps: check 1 at line 1\n"),
    (
        b"structure s(int a;\n*proc() f, a)",
        b"x.ps: check 2 at line 2\n",
    ),
    (b"write 1,\ncommit()", b"x.ps: check 3 at line 2\n"),
    (
        b"let f = proc( -> int)\ncommit()",
        b"x.ps: check 3 at line 2\n",
    ),
    (b"write eof()\nwrite b", b"x.ps: check 1 at line 2\n"),
    (b"let p =\nvector 1::2 of c", b"x.ps: check 1 at line 2\n"),
    (b"write \"a\" ++\n1", b"x.ps: check 3 at line 2\n"),
    (b"write nil\nlet p = nil", b"x.ps: check 3 at line 1\n"),
];

#[test]
fn first_faults_are_told(rt: HostRuntime) {
    for (place, (text, told)) in FIRST_FAULTS.iter().enumerate() {
        assert!(rt; is_answered(rt.alloc(), text, told, 2), "row {place}");
    }
}

// So many open braces, and as many closed ones.
fn nested(alloc: Global, depth: usize) -> Result<Vec<u8>, AllocError> {
    let mut text = vec![in alloc; b'{'; depth]?;
    for _ in 0..depth {
        text.push(b'}')?;
    }
    Ok(text)
}

const BRACES: [Limit; 2] = [(100, b"", 0), (101, b"x.ps: parse 2 at line 1\n", 2)];

fn are_nested(alloc: Global, limit: &Limit) -> bool {
    is_limit(alloc, nested(alloc, limit.0), limit)
}

#[test]
fn braces_are_nested_to_the_limit(rt: HostRuntime) {
    for limit in &BRACES {
        assert!(rt; are_nested(rt.alloc(), limit));
    }
}

static NO_COMMANDS: [(&[&str], &str); 26] = [
    (&["run"], "v.vol"),
    (&["format"], "v.vol"),
    (&["format", "v.vol"], "31"),
    (&["format", "v.vol"], "1048577"),
    (&["format", "v.vol"], "00000064"),
    (&["format", "v.vol"], "6a"),
    (&["format", "v.vol", "64"], "64"),
    (&["format", "-v"], "64"),
    (&["walk", "v.vol"], "x.ps"),
    (&["run", "-v"], "x.ps"),
    (&["run", "v.vol"], "-x"),
    (&["run", "v.vol", "x.ps"], "y.ps"),
    (&["run", "v.vol", "--turns"], "5"),
    (&["run", "v.vol", "--turns", "+5"], "x.ps"),
    (&["run", "v.vol", "--turns", "1000000000001"], "x.ps"),
    (&["run", "v.vol", "--turns", "00000000000005"], "x.ps"),
    (&["run", "v.vol", "--turns=5", "x.ps", "--turns"], "5"),
    (&["run", "v.vol", "--area", "0"], "x.ps"),
    (&["run", "v.vol", "--area", "262145"], "x.ps"),
    (&["run", "v.vol", "--area", "00000064"], "x.ps"),
    (&["run", "v.vol", "--area", ""], "x.ps"),
    (&["run", "v.vol", "--help"], "x.ps"),
    (&["run", "v.vol", "--area", "64", "--turns"], "x.ps"),
    (&["run", "v.vol", "--input"], "x.ps"),
    (&["help"], "run"),
    (
        &[
            "run", "v.vol", "--area", "64", "--turns", "5", "--input", "x.ps",
        ],
        "-x",
    ),
];

const USAGE: &[u8] = b"usage: psalgol COMMAND VOLUME WORDS\n";

fn are_no_command<'a>(alloc: Global, words: &'a [&'a str], last: &'a str) -> bool {
    let command = Command {
        words,
        last,
        texts: &[("x.ps", b"write 1")],
    };
    command.is_answered(alloc, &[], USAGE, 1)
}

#[test]
fn other_words_are_no_command(rt: HostRuntime) {
    for (place, (words, last)) in NO_COMMANDS.iter().enumerate() {
        assert!(rt; are_no_command(rt.alloc(), words, last), "row {place}");
    }
}

static TEXTS: [(&[&str], &str, &str); 5] = [
    (&[], "--help", HELP),
    (&[], "help", HELP),
    (&[], "--version", VERSION),
    (&["run"], "--help", RUN_HELP),
    (&["format"], "--help", FORMAT_HELP),
];

fn is_told<'a>(alloc: Global, words: &'a [&'a str], last: &'a str, text: &str) -> bool {
    let command = Command {
        words,
        last,
        texts: &[],
    };
    command.is_answered(alloc, &[], text.as_bytes(), 0)
}

#[test]
fn the_program_tells_of_itself(rt: HostRuntime) {
    for (words, last, text) in &TEXTS {
        assert!(rt; is_told(rt.alloc(), words, last, text));
    }
}

static OPTIONS_ANYWHERE: [(&[&str], &str); 4] = [
    (&["run", "v.vol", "x.ps", "--turns"], "5"),
    (&["run", "v.vol", "--turns=5", "--area", "64"], "x.ps"),
    (&["run", "v.vol", "x.ps"], "--input=x.ps"),
    (&["run", "v.vol", "--turns", "5", "--"], "x.ps"),
];

fn is_run<'a>(alloc: Global, words: &'a [&'a str], last: &'a str) -> bool {
    let command = Command {
        words,
        last,
        texts: &[("x.ps", b"write 1")],
    };
    command.is_answered(alloc, &[], b"1", 0)
}

#[test]
fn options_stand_anywhere(rt: HostRuntime) {
    for (words, last) in &OPTIONS_ANYWHERE {
        assert!(rt; is_run(rt.alloc(), words, last));
    }
}

// The name of the only text, that text as a part that is repeated, the calls that fail, what is output
// for `z.ps` and the status.
type Fault<'a> = (&'a str, &'a [u8], usize, &'a [u64], &'a [u8], u8);

const SUM: &[u8] = b"write 1 + 2, \"'n\" ?";

static FAULTS: [Fault<'static>; 7] = [
    ("x.ps", b"", 1, &[], b"cannot read z.ps\n", 7),
    (
        "z.ps",
        b"\n",
        1_048_577,
        &[],
        b"z.ps: 1048577 bytes, at most 1048576\n",
        13,
    ),
    ("z.ps", b"\n", 1_048_576, &[], b"", 0),
    ("z.ps", SUM, 1, &[14], b"3", 8),
    ("z.ps", SUM, 1, &[15], b"3\n", 0),
    ("z.ps", b"write 1234, \"'n\"", 1, &[14], b"12", 8),
    ("x.ps", b"", 1, &[1], b"cannot read z.", 8),
];

fn repeated(alloc: Global, part: &[u8], times: usize) -> Result<Vec<u8>, AllocError> {
    let mut text = Vec::new(alloc);
    for _ in 0..times {
        text.extend_from_slice(part)?;
    }
    Ok(text)
}

// The calls of attaching are the first fourteen, since the volume is attached twice: to be moved into the last form, and then with its store.
fn is_fault(alloc: Global, fault: &Fault<'_>) -> bool {
    let (name, part, times, failing, told, status) = fault;
    let Ok(text) = repeated(alloc, part, *times) else {
        return false;
    };
    let command = Command {
        words: RUN,
        last: "z.ps",
        texts: &[(*name, text.as_slice())],
    };
    command.is_answered(alloc, failing, told, *status)
}

#[test]
fn faults_of_the_outside_are_answered(rt: HostRuntime) {
    for (place, fault) in FAULTS.iter().enumerate() {
        assert!(rt; is_fault(rt.alloc(), fault), "row {place}");
    }
}

// A sum of so many ones and a 0.
fn sum_of(alloc: Global, ones: usize) -> Result<Vec<u8>, AllocError> {
    let mut sum = Vec::from_slice(alloc, b"write 0")?;
    for _ in 0..ones {
        sum.extend_from_slice(b"+1")?;
    }
    Ok(sum)
}

#[test]
fn long_chains_end_in_an_answer(rt: HostRuntime) {
    let sum = sum_of(rt.alloc(), 200_000);
    assert!(rt; is_limit(rt.alloc(), sum, &(200_000, b"200000", 0)));
}

// The status for this text, whatever is output.
fn status_of(alloc: Global, text: &[u8]) -> Option<u8> {
    let run = Command {
        words: RUN,
        last: "x.ps",
        texts: &[("x.ps", text)],
    };
    match run.answer(alloc, &[]) {
        Ok(answer) => Some(answer.status()),
        Err(_) => None,
    }
}

// Whether the longest text of bytes like this one ends in this status.
fn is_ended(alloc: Global, byte: u8, status: u8) -> bool {
    match vec![in alloc; byte; 1_048_576] {
        Ok(text) => status_of(alloc, &text) == Some(status),
        Err(_) => false,
    }
}

#[test]
fn long_texts_of_one_byte_end_in_an_answer(rt: HostRuntime) {
    assert!(rt; is_ended(rt.alloc(), b'\n', 0));
    for byte in b"({-~" {
        assert!(rt; is_ended(rt.alloc(), *byte, 2));
    }
}
