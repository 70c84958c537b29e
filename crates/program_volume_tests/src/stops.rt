//! What a stop, or a call that fails, leaves of a volume while a program commits: what was there before, or all that it commits.

use crate::commands::{answer_over, is_unwritten};
use command_answers::memory_host::MemoryHost;
use command_answers::{Answer, Command, new_volume};
use std::alloc::{AllocError, Global};
use std::test::Fail;

/// The bytes that the host of a run has room for.
const ROOM: u64 = 16_000_000;

const WORDS: &[&str] = &["run", "v.vol", "--area", "64"];

/// A run that saves a database with a person.
const SAVE: Command<'static> = Command {
    words: WORDS,
    last: "x.ps",
    texts: &[(
        "x.ps",
        b"structure person(string name; int age; pntr home)
structure address(int number; string town)
let d = create.database(\"people\", \"pw\")
s.enter(\"al\", d, person(\"al\", 41, address(76, \"St Andrews\")))
let e = commit()
if e = nil do write \"saved'n\"",
    )],
};

/// A run that looks for the person.
const FIND: Command<'static> = Command {
    words: WORDS,
    last: "x.ps",
    texts: &[(
        "x.ps",
        b"structure person(string name; int age; pntr home)
structure address(int number; string town)
let d = open.database(\"people\", \"pw\", \"read\")
write if d is error.record then d(error.fault) else s.lookup(\"al\", d)(home)(town)",
    )],
};

/// A run that saves a counter.
const MAKE: Command<'static> = Command {
    words: WORDS,
    last: "x.ps",
    texts: &[(
        "x.ps",
        b"structure counter(proc( -> int) next)
let d = create.database(\"c\", \"\")
let make = proc( -> proc( -> int)); { let n := 0; proc( -> int); { n := n + 1; n } }
s.enter(\"k\", d, counter(make()))
let e = commit()",
    )],
};

/// A run that counts to two, and commits after each.
const COUNT: Command<'static> = Command {
    words: WORDS,
    last: "x.ps",
    texts: &[(
        "x.ps",
        b"structure counter(proc( -> int) next)
let d = open.database(\"c\", \"\", \"write\")
let p = s.lookup(\"k\", d)
write p(next)(), \" \"
let e = commit()
s.enter(\"two\", d, p)
write p(next)(), \" \"
let f = commit()
write \"saved'n\"",
    )],
};

/// A run that looks at the counter, and whether it is entered a second time. It calls it, but doesn't commit.
const LOOK: Command<'static> = Command {
    words: WORDS,
    last: "x.ps",
    texts: &[(
        "x.ps",
        b"structure counter(proc( -> int) next)
let d = open.database(\"c\", \"\", \"read\")
write cardinality(d), s.lookup(\"k\", d)(next)(), commit() = nil",
    )],
};

/// The runs before one that saves, that run, and one that looks: what this outputs of each heap that there may be, in their order, and all that the saving run outputs.
struct Scene {
    before: &'static [Command<'static>],
    save: Command<'static>,
    look: Command<'static>,
    heaps: &'static [&'static [u8]],
    said: &'static [u8],
}

static PERSON: Scene = Scene {
    before: &[],
    save: SAVE,
    look: FIND,
    heaps: &[b"no such database", b"St Andrews"],
    said: b"saved\n",
};

static COUNTER: Scene = Scene {
    before: &[MAKE],
    save: COUNT,
    look: LOOK,
    heaps: &[b"11false", b"12false", b"23false"],
    said: b"1 2 saved\n",
};

// The bytes of the volume before the run that saves.
fn start_of(alloc: Global, scene: &Scene) -> Result<Vec<u8>, AllocError> {
    let mut bytes = new_volume(alloc, "32")?;
    for command in scene.before {
        let answer = answer_over(alloc, *command, &bytes, &[])?;
        bytes = Vec::from_slice(alloc, answer.host().contents())?;
    }
    Ok(bytes)
}

// Whether this is the text of a heap of the scene; of the last one, where all was said that the saving run says.
fn is_heap(scene: &Scene, told: &[u8], said: &[u8]) -> bool {
    if said == scene.said {
        return match scene.heaps {
            [.., last] => told == *last,
            [] => false,
        };
    }
    for heap in scene.heaps {
        if told == *heap {
            return true;
        }
    }
    false
}

// Whether a run over this file finds one of the heaps.
fn is_left(alloc: Global, scene: &Scene, file: &[u8], said: &[u8]) -> bool {
    match answer_over(alloc, scene.look, file, &[]) {
        Ok(answer) => answer.status() == 0 && is_heap(scene, answer.told(), said),
        Err(_) => false,
    }
}

// The same of what a stop leaves at this moment, with this byte where anything may stand.
fn is_image(
    alloc: Global,
    scene: &Scene,
    host: &MemoryHost,
    moment: u64,
    filler: u8,
    said: &[u8],
) -> bool {
    match host.crash(alloc, moment, filler) {
        Ok(image) => is_left(alloc, scene, &image, said),
        Err(_) => false,
    }
}

// The same of what is left at the end of a run: of what a read gives, and of what a stop leaves with either byte.
fn is_safe(alloc: Global, scene: &Scene, answer: &Answer) -> bool {
    let host = answer.host();
    let said = answer.told();
    is_left(alloc, scene, host.contents(), said)
        && is_image(alloc, scene, host, host.clock(), 0, said)
        && is_image(alloc, scene, host, host.clock(), 255, said)
}

// The whole run.
fn whole(alloc: Global, scene: &Scene, start: &[u8]) -> Result<Answer, AllocError> {
    answer_over(alloc, scene.save, start, &[])
}

// Whether each image of a moment is safe.
fn is_moment(alloc: Global, scene: &Scene, host: &MemoryHost, moment: u64) -> bool {
    is_image(alloc, scene, host, moment, 0, b"") && is_image(alloc, scene, host, moment, 255, b"")
}

// The first moment of a run that isn't stopped at which one isn't.
fn unsafe_moment(alloc: Global, scene: &Scene) -> Result<Option<u64>, AllocError> {
    let start = start_of(alloc, scene)?;
    let answer = whole(alloc, scene, &start)?;
    if !answer.is(scene.said, 0) || !is_safe(alloc, scene, &answer) {
        return Ok(Some(answer.host().clock()));
    }
    for moment in 0..answer.host().clock() {
        if !is_moment(alloc, scene, answer.host(), moment) {
            return Ok(Some(moment));
        }
    }
    Ok(None)
}

// Whether a run is answered as one whose device failed, or its output.
fn is_broken(answer: &Answer) -> bool {
    answer.status() == 6 || answer.status() == 8
}

// Whether the run is safe where each call from this one on fails.
fn is_stopped(alloc: Global, scene: &Scene, start: &[u8], call: u64) -> Result<bool, AllocError> {
    let host = MemoryHost::new(alloc, start, &[], call, ROOM)?;
    let answer = scene.save.over(alloc, host)?;
    Ok(is_broken(&answer) && is_safe(alloc, scene, &answer))
}

// Whether it is where this call alone fails.
fn is_failed(alloc: Global, scene: &Scene, start: &[u8], call: u64) -> Result<bool, AllocError> {
    let answer = answer_over(alloc, scene.save, start, &[call])?;
    Ok(is_broken(&answer) && is_safe(alloc, scene, &answer))
}

// The first call from which on a stop isn't safe.
fn unsafe_stop(alloc: Global, scene: &Scene) -> Result<Option<u64>, AllocError> {
    let start = start_of(alloc, scene)?;
    let calls = whole(alloc, scene, &start)?.host().clock();
    for call in 0..calls {
        if !is_stopped(alloc, scene, &start, call)? {
            return Ok(Some(call));
        }
    }
    Ok(None)
}

// The first call whose fault isn't.
fn unsafe_fault(alloc: Global, scene: &Scene) -> Result<Option<u64>, AllocError> {
    let start = start_of(alloc, scene)?;
    let calls = whole(alloc, scene, &start)?.host().clock();
    for call in 0..calls {
        if !is_failed(alloc, scene, &start, call)? {
            return Ok(Some(call));
        }
    }
    Ok(None)
}

#[test]
fn each_moment_of_a_first_commit_leaves_a_heap(rt: HostRuntime) {
    assert!(rt; unsafe_moment(rt.alloc(), &PERSON) == Ok(None));
}

#[test]
fn each_moment_of_two_commits_leaves_a_heap(rt: HostRuntime) {
    assert!(rt; unsafe_moment(rt.alloc(), &COUNTER) == Ok(None));
}

#[test]
fn each_stop_of_a_first_commit_leaves_a_heap(rt: HostRuntime) {
    assert!(rt; unsafe_stop(rt.alloc(), &PERSON) == Ok(None));
}

#[test]
fn each_stop_of_two_commits_leaves_a_heap(rt: HostRuntime) {
    assert!(rt; unsafe_stop(rt.alloc(), &COUNTER) == Ok(None));
}

#[test]
fn each_fault_of_a_first_commit_leaves_a_heap(rt: HostRuntime) {
    assert!(rt; unsafe_fault(rt.alloc(), &PERSON) == Ok(None));
}

#[test]
fn each_fault_of_two_commits_leaves_a_heap(rt: HostRuntime) {
    assert!(rt; unsafe_fault(rt.alloc(), &COUNTER) == Ok(None));
}

/// A run that makes a database and enters something, but doesn't commit.
const NO_COMMIT: Command<'static> = Command {
    words: WORDS,
    last: "x.ps",
    texts: &[(
        "x.ps",
        b"let d = create.database(\"d\", \"\")
s.enter(\"d\", d, d)
let e = open.database(\"people\", \"pw\", \"write\")
s.enter(\"al\", e, d)
write cardinality(e)",
    )],
};

/// A run whose commit has nothing to do.
const NOTHING: Command<'static> = Command {
    words: WORDS,
    last: "x.ps",
    texts: &[(
        "x.ps",
        b"let d = open.database(\"people\", \"pw\", \"read\")
let e = commit()
write e = nil, \"'n\"",
    )],
};

/// A run whose commit is refused.
const REFUSED: Command<'static> = Command {
    words: WORDS,
    last: "x.ps",
    texts: &[(
        "x.ps",
        b"let d = open.database(\"people\", \"pw\", \"read\")
s.enter(\"al\", d, nil)
write commit()(error.fault)",
    )],
};

// Whether a run over this file outputs this, and writes nothing.
fn is_silent(alloc: Global, run: Command<'_>, file: &[u8], told: &[u8]) -> bool {
    match answer_over(alloc, run, file, &[]) {
        Ok(answer) => answer.is(told, 0) && is_unwritten(answer.host(), file),
        Err(_) => false,
    }
}

#[test]
fn what_saves_nothing_writes_nothing(rt: HostRuntime) -> Result<(), Fail> {
    let start = start_of(rt.alloc(), &PERSON)?;
    let answer = whole(rt.alloc(), &PERSON, &start)?;
    let file = Vec::from_slice(rt.alloc(), answer.host().contents())?;
    assert!(rt; is_silent(rt.alloc(), NO_COMMIT, &file, b"1"));
    assert!(rt; is_silent(rt.alloc(), NOTHING, &file, b"true\n"));
    assert!(rt; is_silent(rt.alloc(), REFUSED, &file, b"not writable"));
    Ok(())
}
