//! Texts, and for each the unit that the rules of the code give, worked out by hand: its instructions, its constants in quotes
//! or `#` for a literal, the locals of its frame, and after it the units of its literals.

use crate::listing::listed;
use std::alloc::Global;
use std::process::Abort;
use std::test::Fail;

// Choices, loops and writes.
static CLAUSES: [(&str, &str); 11] = [
    ("", "return 0; 'proc()'\n"),
    (
        "write 1 + 2, \"'n\"",
        "int 1; int 2; add 1; write.i 0 1; text 1; write.t 0 1; return 0; 'proc()''\n'\n",
    ),
    (
        "if 1 < 2 then write 1 else write 2",
        "int 1; int 2; lt.m; jump.false 35; int 1; write.i 0 1; jump 49; int 2; write.i 0 1; \
        return 0; 'proc()'\n",
    ),
    (
        "if true do write 1",
        "true; jump.false 20; int 1; write.i 0 1; return 0; 'proc()'\n",
    ),
    (
        "while false do write 1; repeat write 1 while true do write 2",
        "jump 19; int 1; write.i 0 1; false; again 5; jump 44; int 2; write.i 0 1; int 1; \
        write.i 0 1; true; again 30; return 0; 'proc()'\n",
    ),
    (
        "for i = 1 to 3 do write i",
        "int 1; set.m 0; int 3; set.m 1; int 1; set.m 2; for.start 0 76 1; get.m 0; set.m 3; \
        get.m 3; write.i 0 1; for.next 0 43; return 0; 'proc()' m4\n",
    ),
    (
        "case \"a\" of \"b\", \"c\": write 1; default: write 2",
        "text 1; dup.p; text 2; eq.t; jump.true 34; dup.p; text 3; eq.t; jump.true 34; jump 54; \
        drop.p; int 1; write.i 0 1; jump 69; drop.p; int 2; write.i 0 1; return 0; \
        'proc()''a''b''c'\n",
    ),
    (
        "write case 1 of 2: 3; default: 4",
        "int 1; dup.m; int 2; eq.m; jump.true 22; jump 33; drop.m; int 3; jump 39; drop.m; int \
        4; write.i 0 1; return 0; 'proc()'\n",
    ),
    (
        "write 1 : 2, true : 3, \"x\" : 4",
        "int 1; int 2; write.i 1 1; true; int 3; write.b 1 1; text 1; int 4; write.t 1 1; \
        return 0; 'proc()''x'\n",
    ),
    ("abort", "abort 1; return 0; 'proc()'\n"),
    (
        "if true do\nif false do\nabort",
        "true; jump.false 17; false; jump.false 17; abort 3; return 0; 'proc()'\n",
    ),
];

#[test]
fn clauses_have_code(rt: HostRuntime) -> Result<(), Fail> {
    rows_are_listed(&rt, rt.alloc(), &CLAUSES)
}

// Operators.
static OPERATORS: [(&str, &str); 4] = [
    (
        "let b := true; b := ~ b and (b or -1 >= +2)",
        "true; set.m 0; get.m 0; not; and 43; get.m 0; or 43; int 1; neg 1; int 2; ge.m; set.m \
        0; return 0; 'proc()' m1\n",
    ),
    (
        "write 1 - 2 * 3 div 4 rem 5, \"ab\" ++ \"c\", \"abc\"(1|2)",
        "int 1; int 2; int 3; mul 1; int 4; div 1; int 5; rem 1; sub 1; write.i 0 1; text 1; \
        text 2; join 1; write.t 0 1; text 3; int 1; int 2; part 1; write.t 0 1; return 0; \
        'proc()''ab''c''abc'\n",
    ),
    (
        "write 1 = 2, 1 ~= 2, 1 <= 2, 1 > 2, nil = nil, nil ~= nil",
        "int 1; int 2; eq.m; write.b 0 1; int 1; int 2; ne.m; write.b 0 1; int 1; int 2; le.m; \
        write.b 0 1; int 1; int 2; gt.m; write.b 0 1; nil; nil; eq.p; write.b 0 1; nil; nil; \
        ne.p; write.b 0 1; return 0; 'proc()'\n",
    ),
    (
        "write \"a\" ~= \"b\", \"a\" < \"b\", \"a\" <= \"b\", \"a\" > \"b\", \"a\" >= \"b\"",
        "text 1; text 2; ne.t; write.b 0 1; text 3; text 4; lt.t; write.b 0 1; text 5; text 6; \
        le.t; write.b 0 1; text 7; text 8; gt.t; write.b 0 1; text 9; text 10; ge.t; write.b 0 \
        1; return 0; 'proc()''a''b''a''b''a''b''a''b''a''b'\n",
    ),
];

#[test]
fn operators_have_code(rt: HostRuntime) -> Result<(), Fail> {
    rows_are_listed(&rt, rt.alloc(), &OPERATORS)
}

// Structures and vectors.
static OBJECTS: [(&str, &str); 3] = [
    (
        "structure c(int a; string s); let x = c(1, \"t\"); write x(a), x(s); x(a) := 2; x(s) \
        := \"u\"; write x is c",
        "int 1; text 1; make 2; set.p 0; get.p 0; field.m 3 0 1; write.i 0 1; get.p 0; field.p 4 \
        1 1; write.t 0 1; get.p 0; int 2; set.field.m 5 0 1; get.p 0; text 6; set.field.p 7 1 1; \
        get.p 0; is 8; write.b 0 1; return 0; 'proc()''t''c(int a;string s)''c(int a;string \
        s)''c(int a;string s)''c(int a;string s)''u''c(int a;string s)''c(int a;string s)' p1\n",
    ),
    (
        "let v = vector 1::2 of 0; let w = @1 of string[\"a\", \"b\"]; v(1) := v(2); w(1) := \
        w(2); write lwb(v), upb(w)",
        "int 1; int 2; int 0; fill.m 1 1; set.p 0; int 1; text 2; text 3; list.p 4 2 1; set.p 1; \
        get.p 0; int 1; get.p 0; int 2; elem.m 1; set.elem.m 1; get.p 1; int 1; get.p 1; int 2; \
        elem.p 1; set.elem.p 1; get.p 0; lwb; write.i 0 1; get.p 1; upb; write.i 0 1; return 0; \
        'proc()''*int''a''b''*string' p2\n",
    ),
    (
        "let a = @1 of int[7]; let b = vector 1::1 of \"x\"",
        "int 1; int 7; list.m 1 1 1; set.p 0; int 1; int 1; text 2; fill.p 3 1; set.p 1; return \
        0; 'proc()''*int''x''*string' p2\n",
    ),
];

#[test]
fn objects_have_code(rt: HostRuntime) -> Result<(), Fail> {
    rows_are_listed(&rt, rt.alloc(), &OBJECTS)
}

// Procedures, with what they keep, and the library.
static PROCEDURES: [(&str, &str); 6] = [
    (
        "let f = proc(int a -> proc(int -> int)); proc(int b -> int); b; write f(1)(2)",
        "closure 1; set.p 0; get.p 0; int 1; call 0 1; int 2; call 0 1; write.i 0 1; return 0; \
        'proc()'# p1\nclosure 1; return 2; 'proc(int->proc(int->int))'# m1 am1\nget.m 0; return \
        1; 'proc(int->int)' m1 am1\n",
    ),
    (
        "let n := 0; let f = proc( -> int); { n := n + 1; n }; write f()",
        "scope 1; int 0; keep.m 0 0; closure 2; set.p 0; get.p 0; call 0 1; write.i 0 1; leave; \
        return 0; 'proc()''scope(int n)'# p1\nkept.m 0 0; int 1; add 1; keep.m 0 0; kept.m 0 0; \
        return 1; 'proc(->int)'\n",
    ),
    (
        "let f = proc(int a; string s -> proc( -> string)); proc( -> string); s; write f(1, \
        \"x\")()",
        "closure 1; set.p 0; get.p 0; int 1; text 2; call 1 1; call 0 1; write.t 0 1; return 0; \
        'proc()'#'x' p1\nscope 1; get.p 0; keep.p 0 0; closure 2; return 2; \
        'proc(int,string->proc(->string))''scope(string s)'# m1 p1 am1 ap1\nkept.p 0 0; return \
        2; 'proc(->string)'\n",
    ),
    (
        "for i = 1 to 2 do { let f = proc( -> int); i }",
        "int 1; set.m 0; int 2; set.m 1; int 1; set.m 2; for.start 0 82 1; scope 1; get.m 0; \
        keep.m 0 0; closure 2; set.p 0; leave; for.next 0 43; return 0; 'proc()''scope(int i)'# \
        m3 p1\nkept.m 0 0; return 1; 'proc(->int)'\n",
    ),
    (
        "let t = table(); s.enter(\"k\", t, nil); let n = s.scan(t, proc(string k; pntr v -> \
        bool); true); write n",
        "lib 3 1; set.p 0; text 1; get.p 0; nil; lib 4 1; get.p 0; set.p 1; closure 2; set.p 2; \
        int 0; set.m 1; int 0; set.m 2; int 0; set.m 3; scan.t 1 1 119 1; call 2 1; scan.more 1 \
        84; get.m 1; set.m 0; get.m 0; write.i 0 1; return 0; 'proc()''k'# m4 p4\ntrue; return \
        1; 'proc(string,pntr->bool)' p2 ap2\n",
    ),
    (
        "let n = i.scan(nil, proc(int k; pntr v -> bool); false)",
        "nil; set.p 0; closure 1; set.p 1; int 0; set.m 1; int 0; set.m 2; int 0; set.m 3; \
        scan.i 0 1 81 1; call 1 1; scan.more 1 46; get.m 1; set.m 0; return 0; 'proc()'# m4 \
        p3\nfalse; return 1; 'proc(int,pntr->bool)' m1 p1 am1 ap1\n",
    ),
];

#[test]
fn procedures_have_code(rt: HostRuntime) -> Result<(), Fail> {
    rows_are_listed(&rt, rt.alloc(), &PROCEDURES)
}

fn rows_are_listed(rt: &impl Abort, alloc: Global, rows: &[(&str, &str)]) -> Result<(), Fail> {
    for (text, wanted) in rows {
        let found = listed(alloc, text.as_bytes())?;
        is_listed(rt, found.as_str(), wanted, text);
    }
    Ok(())
}

// Compares a listing with the one that is wanted; a failure tells of which text.
fn is_listed(rt: &impl Abort, found: &str, wanted: &str, text: &str) {
    assert_eq!(rt; found, wanted, "{text}");
}
