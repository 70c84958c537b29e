//! Texts of the demo program, from the least to the greatest number of entries.

use parsed_texts::ps_tree::rough::Rough;
use parsed_texts::tree_of;
use ps_check::check::check;
use ps_demo::demo_text;
use std::alloc::Global;
use std::test::Fail;

// The text for one entry, as a person writes it.
const OF_ONE: &[u8] = br#"structure entry(string town; int code)
let d := open.database("demo", "demo", "write")
if d is error.record do d := create.database("demo", "demo")
s.enter("k1001", d, entry("town1", 2))
let sum := 0
let count = s.scan(d, proc(string k; pntr p -> bool); { sum := sum + p(code); true })
let e = commit()
write 1, " ", count, " ", cardinality(d), " ", sum, "'n"
"#;

// Whether the tree of a text has types.
fn is_typed(alloc: Global, rough: Rough) -> bool {
    check(alloc, rough).is_ok()
}

// Whether a text is scanned, parsed and typed without a fault.
fn is_a_program(alloc: Global, text: &[u8]) -> bool {
    match tree_of(alloc, text) {
        Ok(rough) => is_typed(alloc, rough),
        Err(_) => false,
    }
}

#[test]
fn one_entry(rt: HostRuntime) -> Result<(), Fail> {
    let text = demo_text(rt.alloc(), 1)?;
    assert!(rt; text.as_slice() == OF_ONE);
    assert!(rt; is_a_program(rt.alloc(), &text));
    Ok(())
}

#[test]
fn three_entries(rt: HostRuntime) -> Result<(), Fail> {
    let text = demo_text(rt.alloc(), 3)?;
    assert!(rt; is_a_program(rt.alloc(), &text));
    Ok(())
}

#[test]
fn ten_thousand_entries(rt: HostRuntime) -> Result<(), Fail> {
    let text = demo_text(rt.alloc(), 10_000)?;
    assert!(rt; is_a_program(rt.alloc(), &text));
    Ok(())
}

#[test]
fn without_its_structure(rt: HostRuntime) {
    let (_, rest) = OF_ONE.split_at(39);
    assert!(rt; rest.starts_with(b"let d"));
    assert!(rt; !is_a_program(rt.alloc(), rest));
}
