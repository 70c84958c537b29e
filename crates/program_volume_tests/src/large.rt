//! A list of which a run reads a part, in an area that hasn't room for the whole.

use crate::commands::format;
use command_answers::Command;
use command_answers::memory_host::MemoryHost;
use std::alloc::{AllocError, Global};

/// The bytes that the host has room for: the volume of 256 pages is written once, and then a page for each object that is committed.
const ROOM: u64 = 1 << 25;

/// A run that commits 5,000 links, 40,000 words.
const MANY: Command<'static> = Command {
    words: &["run", "v.vol"],
    last: "x.ps",
    texts: &[(
        "x.ps",
        b"structure link(int n; pntr next)
let d = create.database(\"links\", \"\")
let h := nil
for i = 1 to 5000 do h := link(i, h)
s.enter(\"head\", d, h)
write commit() = nil, \"'n\"",
    )],
};

/// A run that reads ten of them, in an area of 8,192 words.
const TEN: Command<'static> = Command {
    words: &["run", "v.vol", "--area", "64"],
    last: "x.ps",
    texts: &[(
        "x.ps",
        b"structure link(int n; pntr next)
let h := s.lookup(\"head\", open.database(\"links\", \"\", \"read\"))
for i = 1 to 10 do { write h(n), \" \"; h := h(next) }",
    )],
};

// Whether the links are committed, and ten of them read.
fn are_read(alloc: Global) -> Result<bool, AllocError> {
    let host = MemoryHost::new(alloc, b"", &[], u64::MAX, ROOM)?;
    let made = format("256").over(alloc, host)?;
    let saved = MANY.over(alloc, made.into_host())?;
    if !saved.is(b"true\n", 0) {
        return Ok(false);
    }
    let read = TEN.over(alloc, saved.into_host())?;
    Ok(read.is(
        b"true\n5000 4999 4998 4997 4996 4995 4994 4993 4992 4991 ",
        0,
    ))
}

#[test]
fn what_is_touched_is_fetched_alone(rt: HostRuntime) {
    assert!(rt; are_read(rt.alloc()) == Ok(true));
}
