//! What stands in the file after a commit, as `docs/formats.md` works it out.

use crate::commands::answer_over;
use command_answers::{Command, new_volume};
use std::alloc::{AllocError, Global};

/// A run that makes the first database of its volume, enters a box in its root, and commits.
const SAVE: Command<'static> = Command {
    words: &["run", "v.vol"],
    last: "x.ps",
    texts: &[(
        "x.ps",
        b"structure box(int n)
let d = create.database(\"first\", \"\")
i.enter(1, d, box(4))
let e = commit()",
    )],
};

/// The words of the space from word 1 on: the root, the node of the key, the box, the text of its class, the directory, the name, the password.
static WORDS: [u64; 52] = [
    0x100000007,
    0,
    3,
    0,
    0x8000000000000009,
    1,
    2,
    1,
    0x400000008,
    0,
    3,
    0,
    0,
    0,
    0,
    0x8000000000000014,
    0,
    1,
    1,
    0x100000002,
    0,
    2,
    0,
    0x800000000000001b,
    1,
    4,
    1,
    0,
    0xa00000003,
    0,
    0,
    0x20746e6928786f62,
    0x296e,
    0x300000009,
    0,
    1,
    0,
    0x800000000000002a,
    0x8000000000000030,
    0x8000000000000001,
    0,
    1,
    0,
    0x500000002,
    0,
    0,
    0x7473726966,
    1,
    0,
    1,
    0,
    0,
];

// The bytes of the words, the low one of each first.
fn spelled(alloc: Global) -> Result<Vec<u8>, AllocError> {
    let mut bytes = Vec::new(alloc);
    for word in &WORDS {
        bytes.extend_from_slice(&word.to_le_bytes())?;
    }
    Ok(bytes)
}

// Whether some page of the file has these bytes after its first word.
fn has_page(file: &[u8], bytes: &[u8]) -> bool {
    for page in 0..file.len() / 4096 {
        let at = page.saturating_mul(4096).saturating_add(8);
        if at < file.len() && file[at..].starts_with(bytes) {
            return true;
        }
    }
    false
}

fn is_stored(alloc: Global) -> Result<bool, AllocError> {
    let made = new_volume(alloc, "64")?;
    let answer = answer_over(alloc, SAVE, &made, &[])?;
    let bytes = spelled(alloc)?;
    Ok(answer.is(b"", 0) && has_page(answer.host().contents(), &bytes))
}

#[test]
fn a_commit_is_as_it_was_worked_out(rt: HostRuntime) {
    assert!(rt; is_stored(rt.alloc()) == Ok(true));
}
