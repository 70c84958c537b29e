//! Files of volumes, byte by byte.

use memory_host::MemoryHost;
use paged_volume::Volume;
use paged_volume::volume_parts::OpenFault;
use std::alloc::{AllocError, Global};

/// The room of a host: bytes and records of its calls.
const ROOM: u64 = 1 << 16;

/// Bytes at a place.
pub struct Part {
    pub at: usize,
    pub bytes: &'static [u8],
}

/// A new volume of 64 pages of format 2: map page 4 names page 5.
pub const SMALL: [Part; 5] = [
    Part {
        at: 0,
        bytes: &[1, 80, 83, 86, 79, 76, 49, 2, 64],
    },
    Part {
        at: 8200,
        bytes: &[1],
    },
    Part {
        at: 8216,
        bytes: &[1],
    },
    Part {
        at: 8220,
        bytes: &[4],
    },
    Part {
        at: 16_384,
        bytes: &[5],
    },
];

/// A new volume of 88 pages of format 2: index page 4 names map page 5, which names page 6.
pub const INDEXED: [Part; 7] = [
    Part {
        at: 0,
        bytes: &[1, 80, 83, 86, 79, 76, 49, 2, 88],
    },
    Part {
        at: 8200,
        bytes: &[1],
    },
    Part {
        at: 8216,
        bytes: &[1],
    },
    Part {
        at: 8220,
        bytes: &[4],
    },
    Part {
        at: 12_284,
        bytes: &[1],
    },
    Part {
        at: 16_384,
        bytes: &[5],
    },
    Part {
        at: 20_480,
        bytes: &[6],
    },
];

/// A volume of 88 pages of format 1 at depth 0: map page 4 names page 5.
pub const FIRST: [Part; 5] = [
    Part {
        at: 0,
        bytes: &[1, 80, 83, 86, 79, 76, 49, 1, 88],
    },
    Part {
        at: 8200,
        bytes: &[1],
    },
    Part {
        at: 8216,
        bytes: &[1],
    },
    Part {
        at: 8220,
        bytes: &[4],
    },
    Part {
        at: 16_384,
        bytes: &[5],
    },
];

/// Puts bytes at a place of a file; those past its end are dropped.
pub fn put(file: &mut [u8], part: &Part) {
    let mut at = part.at;
    for byte in part.bytes {
        if at < file.len() {
            file[at] = *byte;
        }
        at = at.saturating_add(1);
    }
}

/// A file of so many bytes with these in it.
pub fn file_of(alloc: Global, size: usize, parts: &[Part]) -> Result<Vec<u8>, AllocError> {
    let mut file = Vec::from_elem(alloc, 0u8, size)?;
    for part in parts {
        put(&mut file, part);
    }
    Ok(file)
}

/// Whether this is what is found in a file by a host that fails from this call on: the depth, or why there is no volume. The file is left as it is.
pub fn is_found(alloc: Global, file: &[u8], calls: u64, wanted: Result<u32, OpenFault>) -> bool {
    let Ok(host) = MemoryHost::new(alloc, file, &[], calls, ROOM) else {
        return false;
    };
    let (found, host) = match Volume::attach(alloc, host) {
        Ok(volume) => (Ok(volume.depth()), volume.release()),
        Err(refused) => (Err(refused.cause), refused.host),
    };
    found == wanted && host.contents() == file
}
