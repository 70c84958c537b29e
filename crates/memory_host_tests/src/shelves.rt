//! The shelf in memory, and its longest text.

use ps_port::{MemoryShelf, Shelf, ShelfFault};
use std::alloc::{AllocError, Global};
use std::test::Fail;

// Texts under their names, the later in place of the earlier.
static TEXTS: [(&str, &[u8]); 3] = [("a.ps", b"write 1"), ("", b"no name"), ("a.ps", b"write 2")];

// Puts them into a shelf, and two long ones.
fn fill(shelf: &mut MemoryShelf, longest: &[u8], longer: &[u8]) -> Result<(), AllocError> {
    shelf.add("long", longest)?;
    shelf.add("longer", longer)?;
    for (name, bytes) in &TEXTS {
        shelf.add(name, bytes)?;
    }
    Ok(())
}

// The name of a text, the answer of the shelf, and the text.
type TextRow<'a> = (&'a str, Result<(), ShelfFault>, &'a [u8]);

static GIVEN: [TextRow<'static>; 4] = [
    ("a.ps", Ok(()), b"write 2"),
    ("b.ps", Err(ShelfFault::Failed), b""),
    ("", Ok(()), b"no name"),
    (
        "longer",
        Err(ShelfFault::TooLong { length: 1_048_577 }),
        b"",
    ),
];

fn is_given(shelf: &mut MemoryShelf, text: &mut Vec<u8>, row: &TextRow<'_>) -> bool {
    shelf.text(row.0, text) == row.1 && text.as_slice() == row.2
}

// Whether the texts are answered so, and then the longest.
fn texts_hold(shelf: &mut MemoryShelf, text: &mut Vec<u8>, longest: &[u8]) -> bool {
    for row in &GIVEN {
        if !is_given(shelf, text, row) {
            return false;
        }
    }
    is_given(shelf, text, &("long", Ok(()), longest))
}

// Whether a shelf with these two long texts answers so.
fn shelf_holds(alloc: Global, longest: &[u8], longer: &[u8]) -> Result<bool, AllocError> {
    let mut shelf = MemoryShelf::new(alloc);
    fill(&mut shelf, longest, longer)?;
    let mut text = b"before".to_vec(alloc)?;
    Ok(texts_hold(&mut shelf, &mut text, longest))
}

// The same of the longest text that a shelf gives, and one that is longer by a byte.
fn long_texts_hold(alloc: Global) -> Result<bool, AllocError> {
    let longer = vec![in alloc; b'x'; 1_048_577]?;
    shelf_holds(alloc, &longer[1..], &longer)
}

#[test]
fn texts_of_a_memory_shelf(rt: HostRuntime) -> Result<(), Fail> {
    assert!(rt; long_texts_hold(rt.alloc())?);
    Ok(())
}
