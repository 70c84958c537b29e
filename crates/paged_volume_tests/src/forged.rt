//! Files whose numbers were changed.

use crate::files::{FIRST, INDEXED, Part, SMALL, file_of, is_found, put};
use paged_volume::volume_parts::OpenFault;
use std::alloc::Global;

/// Bytes put at a place of a file, and what is found then.
struct Row {
    part: Part,
    found: Result<u32, OpenFault>,
}

/// In a volume of 64 pages of format 2.
const SMALL_ROWS: [Row; 23] = [
    Row {
        part: Part { at: 7, bytes: &[2] },
        found: Ok(0),
    },
    Row {
        part: Part { at: 7, bytes: &[1] },
        found: Ok(0),
    },
    Row {
        part: Part { at: 7, bytes: &[0] },
        found: Err(OpenFault::Damaged {
            at: 7,
            found: 0,
            wanted: 1,
        }),
    },
    Row {
        part: Part { at: 7, bytes: &[3] },
        found: Err(OpenFault::Damaged {
            at: 7,
            found: 3,
            wanted: 2,
        }),
    },
    Row {
        part: Part {
            at: 8,
            bytes: &[31],
        },
        found: Err(OpenFault::Damaged {
            at: 8,
            found: 31,
            wanted: 32,
        }),
    },
    Row {
        part: Part {
            at: 8,
            bytes: &[65],
        },
        found: Err(OpenFault::Damaged {
            at: 8,
            found: 64,
            wanted: 65,
        }),
    },
    Row {
        part: Part {
            at: 1,
            bytes: &[81],
        },
        found: Err(OpenFault::Damaged {
            at: 1,
            found: 54_203_818_333_009,
            wanted: 54_203_818_333_008,
        }),
    },
    Row {
        part: Part {
            at: 8200,
            bytes: &[0],
        },
        found: Err(OpenFault::Damaged {
            at: 8200,
            found: 0,
            wanted: 1,
        }),
    },
    Row {
        part: Part {
            at: 8200,
            bytes: &[1, 56],
        },
        found: Err(OpenFault::Damaged {
            at: 8200,
            found: 14_337,
            wanted: 14_336,
        }),
    },
    Row {
        part: Part {
            at: 8216,
            bytes: &[2],
        },
        found: Err(OpenFault::Damaged {
            at: 8216,
            found: 2,
            wanted: 1,
        }),
    },
    Row {
        part: Part {
            at: 8208,
            bytes: &[1],
        },
        found: Err(OpenFault::Damaged {
            at: 8208,
            found: 1,
            wanted: 0,
        }),
    },
    Row {
        part: Part {
            at: 12_284,
            bytes: &[1],
        },
        found: Err(OpenFault::Damaged {
            at: 12_284,
            found: 1,
            wanted: 0,
        }),
    },
    Row {
        part: Part {
            at: 4096,
            bytes: &[1],
        },
        found: Err(OpenFault::Damaged {
            at: 12_296,
            found: 0,
            wanted: 1,
        }),
    },
    Row {
        part: Part {
            at: 4096,
            bytes: &[2],
        },
        found: Ok(0),
    },
    Row {
        part: Part {
            at: 8220,
            bytes: &[3],
        },
        found: Err(OpenFault::Damaged {
            at: 8220,
            found: 3,
            wanted: 4,
        }),
    },
    Row {
        part: Part {
            at: 8220,
            bytes: &[64],
        },
        found: Err(OpenFault::Damaged {
            at: 8220,
            found: 64,
            wanted: 63,
        }),
    },
    Row {
        part: Part {
            at: 16_384,
            bytes: &[4],
        },
        found: Err(OpenFault::Damaged {
            at: 16_384,
            found: 4,
            wanted: 0,
        }),
    },
    Row {
        part: Part {
            at: 16_384,
            bytes: &[0],
        },
        found: Err(OpenFault::Damaged {
            at: 16_384,
            found: 0,
            wanted: 4,
        }),
    },
    Row {
        part: Part {
            at: 16_384,
            bytes: &[3],
        },
        found: Err(OpenFault::Damaged {
            at: 16_384,
            found: 3,
            wanted: 4,
        }),
    },
    Row {
        part: Part {
            at: 16_384,
            bytes: &[63],
        },
        found: Ok(0),
    },
    Row {
        part: Part {
            at: 16_384,
            bytes: &[64],
        },
        found: Err(OpenFault::Damaged {
            at: 16_384,
            found: 64,
            wanted: 63,
        }),
    },
    Row {
        part: Part {
            at: 16_384,
            bytes: &[255, 255, 255, 255],
        },
        found: Err(OpenFault::Damaged {
            at: 16_384,
            found: 4_294_967_295,
            wanted: 63,
        }),
    },
    Row {
        part: Part {
            at: 16_388,
            bytes: &[1],
        },
        found: Ok(0),
    },
];

/// In a volume of 88 pages of format 2.
const INDEXED_ROWS: [Row; 13] = [
    Row {
        part: Part { at: 7, bytes: &[2] },
        found: Ok(1),
    },
    Row {
        part: Part { at: 7, bytes: &[1] },
        found: Ok(1),
    },
    Row {
        part: Part {
            at: 12_284,
            bytes: &[0],
        },
        found: Err(OpenFault::Damaged {
            at: 12_284,
            found: 0,
            wanted: 1,
        }),
    },
    Row {
        part: Part {
            at: 12_284,
            bytes: &[2],
        },
        found: Err(OpenFault::Damaged {
            at: 12_284,
            found: 2,
            wanted: 1,
        }),
    },
    Row {
        part: Part {
            at: 8220,
            bytes: &[3],
        },
        found: Err(OpenFault::Damaged {
            at: 8220,
            found: 3,
            wanted: 4,
        }),
    },
    Row {
        part: Part {
            at: 8220,
            bytes: &[88],
        },
        found: Err(OpenFault::Damaged {
            at: 8220,
            found: 88,
            wanted: 87,
        }),
    },
    Row {
        part: Part {
            at: 16_384,
            bytes: &[4],
        },
        found: Err(OpenFault::Damaged {
            at: 16_384,
            found: 4,
            wanted: 0,
        }),
    },
    Row {
        part: Part {
            at: 16_384,
            bytes: &[88],
        },
        found: Err(OpenFault::Damaged {
            at: 16_384,
            found: 88,
            wanted: 87,
        }),
    },
    Row {
        part: Part {
            at: 20_480,
            bytes: &[5],
        },
        found: Err(OpenFault::Damaged {
            at: 20_480,
            found: 5,
            wanted: 0,
        }),
    },
    Row {
        part: Part {
            at: 20_480,
            bytes: &[4],
        },
        found: Err(OpenFault::Damaged {
            at: 20_480,
            found: 4,
            wanted: 0,
        }),
    },
    Row {
        part: Part {
            at: 20_480,
            bytes: &[87],
        },
        found: Ok(1),
    },
    Row {
        part: Part {
            at: 20_480,
            bytes: &[0],
        },
        found: Err(OpenFault::Damaged {
            at: 20_480,
            found: 0,
            wanted: 4,
        }),
    },
    Row {
        part: Part {
            at: 16_388,
            bytes: &[5],
        },
        found: Ok(1),
    },
];

/// In a volume of 88 pages of format 1 at depth 0.
const FIRST_ROWS: [Row; 5] = [
    Row {
        part: Part { at: 7, bytes: &[1] },
        found: Ok(0),
    },
    Row {
        part: Part { at: 7, bytes: &[2] },
        found: Err(OpenFault::Damaged {
            at: 12_284,
            found: 0,
            wanted: 1,
        }),
    },
    Row {
        part: Part {
            at: 12_284,
            bytes: &[2],
        },
        found: Err(OpenFault::Damaged {
            at: 12_284,
            found: 2,
            wanted: 1,
        }),
    },
    Row {
        part: Part {
            at: 16_384,
            bytes: &[4],
        },
        found: Err(OpenFault::Damaged {
            at: 16_384,
            found: 4,
            wanted: 0,
        }),
    },
    Row {
        part: Part {
            at: 8220,
            bytes: &[2],
        },
        found: Err(OpenFault::Damaged {
            at: 8220,
            found: 2,
            wanted: 4,
        }),
    },
];

// What a row says is found.
fn holds(alloc: Global, size: usize, parts: &[Part], row: &Row) -> bool {
    let Ok(file) = file_of(alloc, size, parts) else {
        return false;
    };
    let mut file = file;
    put(&mut file, &row.part);
    is_found(alloc, &file, u64::MAX, row.found)
}

// The place of the first row that doesn't hold.
fn other_row(alloc: Global, size: usize, parts: &[Part], rows: &[Row]) -> Option<usize> {
    for (place, row) in rows.iter().enumerate() {
        if !holds(alloc, size, parts, row) {
            return Some(place);
        }
    }
    None
}

#[test]
fn each_number_of_a_small_volume_is_tested(rt: HostRuntime) {
    assert_eq!(rt; other_row(rt.alloc(), 262_144, &SMALL, &SMALL_ROWS), None);
}

#[test]
fn each_number_of_a_volume_with_an_index_page_is_tested(rt: HostRuntime) {
    assert_eq!(rt;
        other_row(rt.alloc(), 360_448, &INDEXED, &INDEXED_ROWS),
        None
    );
}

#[test]
fn each_number_of_a_volume_of_format_1_is_tested(rt: HostRuntime) {
    assert_eq!(rt; other_row(rt.alloc(), 360_448, &FIRST, &FIRST_ROWS), None);
}
