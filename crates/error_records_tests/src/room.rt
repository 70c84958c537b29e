//! Areas that have no room for one of the objects of a record.
use error_records::db_dir::fault::DirFault;
use error_records::joint_ops::swizzle::fault::SwizzleFault;
use error_records::joint_ops::swizzle::swizzle::Swizzle;
use error_records::records::refuse;
use error_records::refusals::{Call, Refusal};
use memory_vault::memory::MemoryVault;
use std::alloc::Global;
use std::test::Fail;

// A row: the words of the area, and the top and the words wanted that are told, or the place of the record.
struct Room {
    words: u32,
    wanted: Result<u32, (u32, u32)>,
}

// The class has 15 words, `create.database` 7, `bad name` 6, `a name has 1 to 64 bytes` 8, and the structure 9.
const ROOMS: [Room; 8] = [
    Room {
        words: 5,
        wanted: Err((1, 15)),
    },
    Room {
        words: 14,
        wanted: Err((1, 15)),
    },
    Room {
        words: 15,
        wanted: Err((16, 7)),
    },
    Room {
        words: 21,
        wanted: Err((16, 7)),
    },
    Room {
        words: 27,
        wanted: Err((23, 6)),
    },
    Room {
        words: 35,
        wanted: Err((29, 8)),
    },
    Room {
        words: 44,
        wanted: Err((37, 9)),
    },
    Room {
        words: 45,
        wanted: Ok(37),
    },
];

// What a call that is refused for its name answers in an area of so many words; None where another fault is told, or another size.
fn answered(alloc: Global, words: u32) -> Result<Option<Result<u32, (u32, u32)>>, Fail> {
    if words < 5 || words > 100 {
        return Ok(None);
    }
    let vault = MemoryVault::new(alloc, 1)?;
    let mut sw = Swizzle::new(alloc, words)?;
    let why = Refusal::Directory(DirFault::BadName);
    match refuse(&mut sw, &vault, Call::Create, why) {
        Ok(record) => Ok(Some(Ok(record))),
        Err(SwizzleFault::AreaFull { top, wanted, size }) if size == words + 1 => Ok(Some(Err((
            top, wanted,
        )))),
        Err(_) => Ok(None),
    }
}

#[test]
fn tells_for_which_object_there_is_no_room(rt: HostRuntime) -> Result<(), Fail> {
    for room in &ROOMS {
        let found = answered(rt.alloc(), room.words)?;
        assert!(rt; found == Some(room.wanted), "{} words", room.words);
    }
    Ok(())
}
