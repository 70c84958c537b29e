//! Map pages that are read and written.

use crate::steps::{put_all, stage, stage_none};
use page_map::{MapFault, PageMap};
use std::alloc::{AllocError, Global};
use std::test::Fail;

/// The numbers at the start of a map page, how many of them are read, and what is answered.
#[derive(Clone, Copy)]
struct Reading {
    numbers: [u32; 4],
    count: u32,
    wanted: Result<(), MapFault>,
}

/// Of a map of 16 pages, of which page 9 is in use.
const READINGS: [Reading; 12] = [
    Reading {
        numbers: [5, 6, 7, 8],
        count: 4,
        wanted: Ok(()),
    },
    Reading {
        numbers: [15, 4, 8, 10],
        count: 4,
        wanted: Ok(()),
    },
    Reading {
        numbers: [5, 6, 7, 0],
        count: 3,
        wanted: Ok(()),
    },
    Reading {
        numbers: [0, 0, 0, 0],
        count: 0,
        wanted: Ok(()),
    },
    Reading {
        numbers: [5, 3, 7, 8],
        count: 4,
        wanted: Err(MapFault::BadNumber { index: 1, found: 3 }),
    },
    Reading {
        numbers: [0, 6, 7, 8],
        count: 4,
        wanted: Err(MapFault::BadNumber { index: 0, found: 0 }),
    },
    Reading {
        numbers: [5, 6, 16, 8],
        count: 4,
        wanted: Err(MapFault::BadNumber {
            index: 2,
            found: 16,
        }),
    },
    Reading {
        numbers: [5, 6, u32::MAX, 8],
        count: 4,
        wanted: Err(MapFault::BadNumber {
            index: 2,
            found: u32::MAX,
        }),
    },
    Reading {
        numbers: [5, 6, 7, 9],
        count: 4,
        wanted: Err(MapFault::BadNumber { index: 3, found: 9 }),
    },
    Reading {
        numbers: [5, 6, 7, 5],
        count: 4,
        wanted: Err(MapFault::BadNumber { index: 3, found: 5 }),
    },
    Reading {
        numbers: [5, 5, 3, 3],
        count: 4,
        wanted: Err(MapFault::BadNumber { index: 1, found: 5 }),
    },
    Reading {
        numbers: [5, 256, 3, 3],
        count: 4,
        wanted: Err(MapFault::BadNumber {
            index: 1,
            found: 256,
        }),
    },
];

/// The start of a map page with these numbers, the low byte first; all else of it is 255.
fn page_of(numbers: &[u32; 4]) -> [u8; 4096] {
    let mut page = [255; 4096];
    for (bytes, number) in page.chunks_exact_mut(4).zip(numbers) {
        bytes.copy_from_slice(&number.to_le_bytes());
    }
    page
}

/// How many of the numbers before an index are staged.
fn staged_before(map: &PageMap, numbers: &[u32; 4], index: u32) -> bool {
    let mut all = true;
    for (page, number) in (0..4).zip(numbers) {
        if page < map.logical() {
            let wanted = if page < index { *number } else { 0 };
            all = map.staged(page) == wanted && all;
        }
    }
    all
}

/// Reads numbers of the first map page; None where it hasn't as many.
pub fn read(map: &mut PageMap, count: u32, bytes: &[u8]) -> Option<Result<(), MapFault>> {
    if count > 1024 || count > map.logical() || bytes.len() != 4096 {
        return None;
    }
    Some(map.read_map_page(0, count, bytes))
}

/// Whether a map page is read as it says.
fn is_read(alloc: Global, reading: &Reading) -> Result<bool, AllocError> {
    let mut map = PageMap::new(alloc, 4, 16)?;
    map.claim(9);
    let found = read(&mut map, reading.count, &page_of(&reading.numbers));
    let count = match reading.wanted {
        Ok(()) => reading.count,
        Err(MapFault::BadNumber { index, .. }) => index,
    };
    Ok(
        found == Some(reading.wanted)
            && staged_before(&map, &reading.numbers, count)
            && map.held() == count.wrapping_add(5),
    )
}

/// The number of the first map page that isn't read as it says.
fn first_unread(alloc: Global, readings: &[Reading]) -> Result<Option<usize>, AllocError> {
    for (number, reading) in readings.iter().enumerate() {
        if !is_read(alloc, reading)? {
            return Ok(Some(number));
        }
    }
    Ok(None)
}

#[test]
fn reads_the_numbers_before_the_first_bad_one(rt: HostRuntime) -> Result<(), Fail> {
    assert_eq!(rt; first_unread(rt.alloc(), &READINGS)?, None);
    Ok(())
}

/// Whether a map page is written as these numbers and then 0 to its end.
fn is_written(map: &PageMap, number: u32, numbers: &[u32]) -> bool {
    let mut page = [255; 4096];
    map.write_map_page(number, &mut page);
    let mut all = true;
    for (index, bytes) in page.chunks_exact(4).enumerate() {
        let wanted = numbers.get(index).copied().unwrap_or(0);
        all = bytes == wanted.to_le_bytes().as_slice() && all;
    }
    all
}

/// Whether staged numbers are written, and committed ones aren't.
fn all_are_written(alloc: Global) -> Result<bool, AllocError> {
    let mut map = PageMap::new(alloc, 1026, 0x0102_0304)?;
    let mut all = stage(&mut map, 0, 0x0102_0303) && stage(&mut map, 2, 4);
    all = stage(&mut map, 1024, 0x0001_0000) && stage(&mut map, 1025, 0xff) && all;
    all = is_written(&map, 0, &[0x0102_0303, 0, 4]) && all;
    all = is_written(&map, 1, &[0x0001_0000, 0xff]) && all;
    all = is_written(&map, 2, &[]) && is_written(&map, u32::MAX, &[]) && all;
    map.settle(&[]);
    all = stage_none(&mut map, 2) && all;
    Ok(is_written(&map, 0, &[0x0102_0303]) && all)
}

#[test]
fn writes_what_is_staged_low_byte_first(rt: HostRuntime) -> Result<(), Fail> {
    assert!(rt; all_are_written(rt.alloc())?);
    Ok(())
}

/// A map of 1,026 logical pages, each in a page of its own, and its two map pages, read into another map.
fn read_again(alloc: Global) -> Result<bool, Fail> {
    let mut map = PageMap::new(alloc, 1026, 1030)?;
    let mut all = put_all(&mut map);
    let mut first = [255; 4096];
    map.write_map_page(0, &mut first);
    let mut second = [255; 4096];
    map.write_map_page(1, &mut second);
    let mut other = PageMap::new(alloc, 1026, 1030)?;
    let answers = (
        other.read_map_page(1, 2, &second),
        other.read_map_page(0, 1024, &first),
    );
    all = answers == (Ok(()), Ok(())) && other.held() == 1030 && all;
    for page in 0..1026 {
        if page < map.logical() && page < other.logical() {
            all = map.staged(page) == other.staged(page) && other.committed(page) == 0 && all;
        }
    }
    Ok(all)
}

#[test]
fn reads_what_it_writes(rt: HostRuntime) -> Result<(), Fail> {
    assert!(rt; read_again(rt.alloc())?);
    Ok(())
}
