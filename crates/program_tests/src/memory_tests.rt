//! Rows of the language reference where one refusal of memory may come anywhere: `rt try --test
//! --fail-alloc N` refuses the Nth. Each answers its own or status 5, and nothing else.

use crate::inputs::READ;
use command_answers::{Answer, Command};
use std::alloc::Global;

// Whether a row was answered by its own, or by status 5.
fn is_own_or_five(answer: &Answer, told: &str, status: u8) -> bool {
    answer.is(told.as_bytes(), status) || answer.is(b"out of memory\n", 5)
}

// Whether the row has its own answer, or status 5. Where memory was refused before the call, there is
// nothing to compare.
fn own_answer_or_five(alloc: Global, text: &str, told: &str, status: u8) -> bool {
    let command = Command {
        words: READ,
        last: "x.ps",
        texts: &[("x.ps", text.as_bytes()), ("in", b"one\ntwo")],
    };
    match command.answer(alloc, &[]) {
        Ok(answer) => is_own_or_five(&answer, told, status),
        Err(_) => true,
    }
}

#[test]
fn refused_in_a_sum(rt: HostRuntime) {
    assert!(rt; own_answer_or_five(rt.alloc(), "write 1 + 2, \"'n\" ?", "3\n", 0));
}

#[test]
fn refused_in_declarations(rt: HostRuntime) {
    let text = "let a = 6; let b := a * 7; b := -b; write b, \" \", { let c = b rem 4; c }";
    assert!(rt; own_answer_or_five(rt.alloc(), text, "-42 -2", 0));
}

#[test]
fn refused_in_choices(rt: HostRuntime) {
    let text =
        "let n := 2\nwhile n > 0 do { if n = 1 do write n; n := n - 1 }\nwrite if n = 0 or false then 7 else 8";
    assert!(rt; own_answer_or_five(rt.alloc(), text, "17", 0));
}

#[test]
fn refused_before_a_trap(rt: HostRuntime) {
    assert!(rt;
        own_answer_or_five(
            rt.alloc(),
            "write 1, 2147483647 * 2",
            "1trap 1 at line 1\n",
            3
        )
    );
}

#[test]
fn refused_before_a_fault(rt: HostRuntime) {
    assert!(rt;
        own_answer_or_five(
            rt.alloc(),
            "let a = 1\na := 2",
            "x.ps: check 4 at line 2\n",
            2
        )
    );
}

#[test]
fn refused_in_loops(rt: HostRuntime) {
    let text = "for i = 1 to 2 do write case i of 1 : 5; default : 6, \"a\" : 2";
    assert!(rt; own_answer_or_five(rt.alloc(), text, "5 a6 a", 0));
}

#[test]
fn refused_in_closures(rt: HostRuntime) {
    let text =
        "procedure f(int n -> proc( -> int)); proc( -> int); { n := n + 1; n }\nlet g = f(4); write g(), g()";
    assert!(rt; own_answer_or_five(rt.alloc(), text, "56", 0));
}

#[test]
fn refused_in_lines(rt: HostRuntime) {
    let text = "while ~ eof() do write read.a.line(), \" \"";
    assert!(rt; own_answer_or_five(rt.alloc(), text, "one two ", 0));
}

#[test]
fn refused_in_commits(rt: HostRuntime) {
    let text =
        "let d = create.database(\"d\", \"\"); s.enter(\"d\", d, d); write commit() = nil, open.database(\"d\", \"x\", \"read\")(error.fault)";
    assert!(rt; own_answer_or_five(rt.alloc(), text, "truepassword", 0));
}
