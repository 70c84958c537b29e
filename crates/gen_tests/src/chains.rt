//! Chains and lists as long as a text allows, by how many instructions they have.

use crate::buffer::Buffer;
use crate::listing::{count_of, unit_of};
use std::alloc::Global;
use std::process::Abort;
use std::test::Fail;

// What stands before, a piece so many times, what stands after, and how many instructions that has.
static CHAINS: [(&str, &str, u32, &str, usize); 7] = [
    // `int 1`, `int 2; add` for each, `write.i` and `return`.
    ("write 1", " + 2", 100_000, "", 200_003),
    // `true`, `and; false` for each, `write.b` and `return`.
    ("write true", " and false", 100_000, "", 200_003),
    // `nil`, a field for each, `set.p` and `return`.
    (
        "structure c(pntr a); let p = nil",
        "(a)",
        100_000,
        "",
        100_003,
    ),
    // `nil`, a field and a call for each, `set.p` and `return`.
    (
        "structure c(proc( -> pntr) f); let p = nil",
        "(f)()",
        50_000,
        "",
        100_003,
    ),
    // `text`, two ints and a part for each, `write.t` and `return`.
    ("write \"abc\"", "(1|3)", 100_000, "", 300_003),
    // `int 1`, nine for each arm, `drop.m` and `return`.
    ("case 1 of ", "1: write 2;", 20_000, "default: {}", 180_003),
    // `int 1`, four for each label, `jump; drop.m; jump; drop.m` and `return`.
    ("case 1 of 1", ", 1", 99_999, ": {}; default: {}", 400_006),
];

fn text_of(alloc: Global, row: (&str, &str, u32, &str, usize)) -> Result<String, Fail> {
    let (before, piece, count, behind, _) = row;
    let mut out = Buffer::new(alloc);
    out.put(before);
    for _ in 0..count {
        out.put(piece);
    }
    out.put(behind);
    out.finish()
}

#[test]
fn chains_have_code(rt: HostRuntime) -> Result<(), Fail> {
    for row in &CHAINS {
        let text = text_of(rt.alloc(), *row)?;
        let unit = unit_of(rt.alloc(), text.as_bytes())?;
        is_count(&rt, count_of(&unit)?, row.4, row.0);
    }
    Ok(())
}

fn is_count(rt: &impl Abort, found: usize, wanted: usize, text: &str) {
    assert_eq!(rt; found, wanted, "{text}");
}
