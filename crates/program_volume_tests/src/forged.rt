//! What a run outputs where stored objects are damaged.

use crate::commands::answer_over;
use command_answers::{Command, new_volume};
use std::alloc::{AllocError, Global};
use std::test::Fail;

/// A run that saves two procedures. The root has PID 1 and 8 words, the node of its key 11, the structure 8, the text of its class 10; then come two closures of 7 words, the code of
/// the first procedure, of 9, that of the second, of 11, the texts of their types, of 7 each, and the directory.
const SAVE: Command<'static> = Command {
    words: &["run", "v.vol"],
    last: "x.ps",
    texts: &[(
        "x.ps",
        b"structure h(proc( -> int) f; proc(bool -> int) g)
let d = create.database(\"d\", \"\")
i.enter(1, d, h(proc( -> int); 7, proc(bool b -> int); if b then 8 else 9))
let e = commit()",
    )],
};

/// A run that calls them.
const CALL: Command<'static> = Command {
    words: &["run", "v.vol"],
    last: "x.ps",
    texts: &[(
        "x.ps",
        b"structure h(proc( -> int) f; proc(bool -> int) g)
let p = i.lookup(1, open.database(\"d\", \"\", \"read\"))
write \"calls \", p(g)(true), p(f)()",
    )],
};

/// Where these bytes stand in the file, the byte so many places after their first is another one; what the run outputs then, and its status.
struct Forged(&'static [u8], usize, u8, &'static [u8], u8);

/// The code of the first procedure: it pushes 7, and returns a number.
const SEVEN: &[u8] = &[1, 7, 0, 0, 0, 62, 1, 0, 0, 0];

/// The headers of a directory of one database, of the root, and of the structure, but for their PIDs.
const DIRECTORY: &[u8] = &[9, 0, 0, 0, 3, 0, 0, 0];

const ROOT: &[u8] = &[7, 0, 0, 0, 1, 0, 0, 0];

const STRUCTURE: &[u8] = &[2, 0, 0, 0, 3, 0, 0, 0];

static FORGED: [Forged; 6] = [
    Forged(SEVEN, 0, 1, b"calls 87", 0),
    Forged(
        SEVEN,
        0,
        0,
        b"calls 8damaged at 52: found 0, wanted 10\n",
        10,
    ),
    Forged(
        SEVEN,
        5,
        255,
        b"calls 8damaged at 52: found 5, wanted 10\n",
        10,
    ),
    Forged(ROOT, 0, 77, b"damaged at 1: found 77, wanted 9\n", 10),
    Forged(STRUCTURE, 2, 1, b"damaged at 20: found 1, wanted 0\n", 10),
    Forged(DIRECTORY, 0, 8, b"damaged at 86: found 8, wanted 9\n", 10),
];

// The bytes of a volume that keeps the procedures.
fn kept(alloc: Global) -> Result<Vec<u8>, AllocError> {
    let made = new_volume(alloc, "32")?;
    let answer = answer_over(alloc, SAVE, &made, &[])?;
    Vec::from_slice(alloc, answer.host().contents())
}

// Puts the byte of a row where its bytes stand at this place.
fn forge_at(file: &mut [u8], at: usize, row: &Forged) {
    if at >= file.len() || !file[at..].starts_with(row.0) {
        return;
    }
    let place = at.saturating_add(row.1);
    if place < file.len() {
        file[place] = row.2;
    }
}

// The same wherever they stand.
fn forge(file: &mut [u8], row: &Forged) {
    for at in 0..file.len() {
        forge_at(file, at, row);
    }
}

fn is_forged(alloc: Global, kept: &[u8], row: &Forged) -> Result<bool, AllocError> {
    let mut file = Vec::from_slice(alloc, kept)?;
    forge(&mut file, row);
    Ok(answer_over(alloc, CALL, &file, &[])?.is(row.3, row.4))
}

#[test]
fn damaged_objects_are_told(rt: HostRuntime) -> Result<(), Fail> {
    let file = kept(rt.alloc())?;
    for (place, row) in FORGED.iter().enumerate() {
        assert!(rt;
            is_forged(rt.alloc(), &file, row) == Ok(true),
            "row {place}"
        );
    }
    Ok(())
}
