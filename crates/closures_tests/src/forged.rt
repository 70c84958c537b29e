//! Closures and others that a store gives, and what is read of each.
ghost use Rattle.std.specs.Prelude.{◌≤◌, ◌^◌};

use crate::scene::{Ended, code, scope, store_of};
use closures::swizzle::swizzle::Swizzle;
use std::alloc::Global;
use std::test::Fail;

// A row: the objects of the store from word 1 on, the PID of the one that is taken for a closure, and what its code and its scope must be.
struct Forged {
    what: &'static str,
    objects: &'static [&'static [u64]],
    pid: u64,
    code: Result<u32, Ended>,
    scope: Result<Option<u32>, Ended>,
}

// 1 in the upper half of a word.
const MANY: u64 = 1 << 32;

// The word of a reference, without the PID.
const PID: u64 = 1 << 63;

// A code object of one byte: seven words.
const CODE: &[u64] = &[6, 0, 3 + MANY, 0, 0, 0, 2];

// A scope without names: seven words.
const SCOPE: &[u64] = &[4 + 2 * MANY, 0, 1, 0, 0, 0, 0];

// `abc`: six words.
const ABC: &[u64] = &[1, 0, 2 + 3 * MANY, 0, 0, 0x0063_6261];

const FORGED: [Forged; 17] = [
    Forged {
        what: "a closure",
        objects: &[CODE, SCOPE, &[5 + 2 * MANY, 0, 1, 0, PID + 1, PID + 8, 0]],
        pid: 15,
        code: Ok(8),
        scope: Ok(Some(8)),
    },
    Forged {
        what: "a closure of no scope",
        objects: &[CODE, &[5 + 2 * MANY, 0, 1, 0, PID + 1, 0, 0]],
        pid: 8,
        code: Ok(8),
        scope: Ok(None),
    },
    Forged {
        what: "a structure",
        objects: &[CODE, &[2 + 2 * MANY, 0, 1, 0, PID + 1, 0, 0]],
        pid: 8,
        code: Err(Ended::Damaged {
            at: 8,
            found: 2,
            wanted: 5,
        }),
        scope: Err(Ended::Damaged {
            at: 8,
            found: 2,
            wanted: 5,
        }),
    },
    Forged {
        what: "a text",
        objects: &[&[1, 0, 1, 0, 0]],
        pid: 1,
        code: Err(Ended::Damaged {
            at: 1,
            found: 1,
            wanted: 5,
        }),
        scope: Err(Ended::Damaged {
            at: 1,
            found: 1,
            wanted: 5,
        }),
    },
    Forged {
        what: "a scope without references",
        objects: &[&[4, 0, 1, 0, 0]],
        pid: 1,
        code: Err(Ended::Damaged {
            at: 1,
            found: 4,
            wanted: 5,
        }),
        scope: Err(Ended::Damaged {
            at: 1,
            found: 4,
            wanted: 5,
        }),
    },
    Forged {
        what: "no references",
        objects: &[&[5, 0, 1, 0, 0]],
        pid: 1,
        code: Err(Ended::Damaged {
            at: 1,
            found: 0,
            wanted: 2,
        }),
        scope: Err(Ended::Damaged {
            at: 1,
            found: 0,
            wanted: 2,
        }),
    },
    Forged {
        what: "one reference",
        objects: &[CODE, &[5 + MANY, 0, 1, 0, PID + 1, 0]],
        pid: 8,
        code: Err(Ended::Damaged {
            at: 8,
            found: 1,
            wanted: 2,
        }),
        scope: Err(Ended::Damaged {
            at: 8,
            found: 1,
            wanted: 2,
        }),
    },
    Forged {
        what: "three references",
        objects: &[CODE, &[5 + 3 * MANY, 0, 1, 0, PID + 1, 0, 0, 0]],
        pid: 8,
        code: Err(Ended::Damaged {
            at: 8,
            found: 3,
            wanted: 2,
        }),
        scope: Err(Ended::Damaged {
            at: 8,
            found: 3,
            wanted: 2,
        }),
    },
    Forged {
        what: "two number words",
        objects: &[CODE, &[5 + 2 * MANY, 0, 2, 0, PID + 1, 0, 0, 0]],
        pid: 8,
        code: Err(Ended::Damaged {
            at: 8,
            found: 2,
            wanted: 1,
        }),
        scope: Err(Ended::Damaged {
            at: 8,
            found: 2,
            wanted: 1,
        }),
    },
    Forged {
        what: "three references and two number words",
        objects: &[CODE, &[5 + 3 * MANY, 0, 2, 0, PID + 1, 0, 0, 0, 0]],
        pid: 8,
        code: Err(Ended::Damaged {
            at: 8,
            found: 3,
            wanted: 2,
        }),
        scope: Err(Ended::Damaged {
            at: 8,
            found: 3,
            wanted: 2,
        }),
    },
    Forged {
        what: "nil for its code",
        objects: &[&[5 + 2 * MANY, 0, 1, 0, 0, 0, 0]],
        pid: 1,
        code: Err(Ended::Damaged {
            at: 1,
            found: 0,
            wanted: 1,
        }),
        scope: Ok(None),
    },
    Forged {
        what: "a text for its code",
        objects: &[ABC, &[5 + 2 * MANY, 0, 1, 0, PID + 1, 0, 0]],
        pid: 7,
        code: Err(Ended::Damaged {
            at: 1,
            found: 1,
            wanted: 6,
        }),
        scope: Ok(None),
    },
    Forged {
        what: "itself for its code",
        objects: &[&[5 + 2 * MANY, 0, 1, 0, PID + 1, 0, 0]],
        pid: 1,
        code: Err(Ended::Damaged {
            at: 1,
            found: 5,
            wanted: 6,
        }),
        scope: Ok(None),
    },
    Forged {
        what: "code for its scope",
        objects: &[CODE, &[5 + 2 * MANY, 0, 1, 0, PID + 1, PID + 1, 0]],
        pid: 8,
        code: Ok(8),
        scope: Err(Ended::Damaged {
            at: 1,
            found: 6,
            wanted: 4,
        }),
    },
    Forged {
        what: "its code and its scope exchanged",
        objects: &[CODE, SCOPE, &[5 + 2 * MANY, 0, 1, 0, PID + 8, PID + 1, 0]],
        pid: 15,
        code: Err(Ended::Damaged {
            at: 8,
            found: 4,
            wanted: 6,
        }),
        scope: Err(Ended::Damaged {
            at: 1,
            found: 6,
            wanted: 4,
        }),
    },
    Forged {
        what: "no object for its code",
        objects: &[&[5 + 2 * MANY, 0, 1, 0, PID + 99, 0, 0]],
        pid: 1,
        code: Err(Ended::Damaged {
            at: 99,
            found: 99,
            wanted: 8,
        }),
        scope: Ok(None),
    },
    Forged {
        what: "no object for its scope",
        objects: &[CODE, &[5 + 2 * MANY, 0, 1, 0, PID + 1, PID + 99, 0]],
        pid: 8,
        code: Ok(8),
        scope: Err(Ended::Damaged {
            at: 99,
            found: 99,
            wanted: 15,
        }),
    },
];

// Room for the objects of a row. What is taken for a closure comes first, to index 1, and what is read of it after that.
const WORDS: u32 = 40;

// Whether the closure of a PID has this code in an area of so many words, and nothing is assigned there.
fn reads_code(
    alloc: Global,
    words: u32,
    objects: &[&[u64]],
    pid: u64,
    wanted: Result<u32, Ended>,
) -> Result<bool, Fail>
    requires low { 5 ≤ words }
    requires high { words ≤ 2 ^ 25 }
{
    let mut vault = store_of(alloc, objects)?;
    let mut sw = Swizzle::new(alloc, words)?;
    Ok(code(&mut vault, &mut sw, pid) == wanted && sw.assigned().is_empty())
}

// The same of its scope.
fn reads_scope(
    alloc: Global,
    objects: &[&[u64]],
    pid: u64,
    wanted: Result<Option<u32>, Ended>,
) -> Result<bool, Fail> {
    let mut vault = store_of(alloc, objects)?;
    let mut sw = Swizzle::new(alloc, WORDS)?;
    Ok(scope(&mut vault, &mut sw, pid) == wanted && sw.assigned().is_empty())
}

#[test]
fn reads_what_a_store_gives(rt: HostRuntime) -> Result<(), Fail> {
    for row in &FORGED {
        let what = row.what;
        let code = reads_code(rt.alloc(), WORDS, row.objects, row.pid, row.code)?;
        assert!(rt; code, "the code of {what}");
        let scope = reads_scope(rt.alloc(), row.objects, row.pid, row.scope)?;
        assert!(rt; scope, "the scope of {what}");
    }
    Ok(())
}

// The closure takes 7 words, and then its code 7.
#[test]
fn fetches_to_the_last_word(rt: HostRuntime) -> Result<(), Fail> {
    let objects = [CODE, [5 + 2 * MANY, 0, 1, 0, PID + 1, 0, 0].as_slice()];
    let full = |top: u32, wanted: u32, size: u32| Ended::Full { top, wanted, size };
    for (words, wanted) in [
        (14, Ok(8)),
        (13, Err(full(8, 7, 14))),
        (7, Err(full(8, 7, 8))),
        (6, Err(full(1, 7, 7))),
    ] {
        let right = reads_code(rt.alloc(), words, &objects, 8, wanted)?;
        assert!(rt; right, "{words}");
    }
    Ok(())
}
