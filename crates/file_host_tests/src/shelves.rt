//! The texts of files that are made up, and of a folder's files.

use crate::folders::{folder_of, path_in, remove};
use ps_port::dir_shelf::read_text;
use ps_port::{DirShelf, Shelf, ShelfFault};
use scripted_system::{Script, Step};
use std::alloc::{AllocError, Global};
use std::cell::Cell;
use std::fs;
use std::io::{self, Read};
use std::test::Fail;

// A file of so many bytes.
#[derive(Drop)]
struct Zeros(u64);

impl Read for Zeros {
    fn read(&mut self, buf: &mut [u8]) -> io::Result<usize> {
        let count = self.0.min(buf.len() as u64);
        self.0 -= count;
        Ok(count as usize)
    }
}

// What the reads of a file do, and the answer with the length of what was kept.
struct Reading<'a>(&'a [Step], Result<(), ShelfFault>, usize);

static READINGS: [Reading<'static>; 4] = [
    Reading(&[Step::Moves(0)], Ok(()), 0),
    Reading(
        &[
            Step::Moves(3),
            Step::Interrupted,
            Step::Moves(4),
            Step::Moves(0),
        ],
        Ok(()),
        7,
    ),
    Reading(&[Step::Moves(3), Step::Fails], Err(ShelfFault::Failed), 3),
    Reading(&[Step::Fails], Err(ShelfFault::Failed), 0),
];

// The answer for such a file.
fn read_pieces(steps: &[Step], text: &mut Vec<u8>) -> Result<(), ShelfFault> {
    let (calls, moved) = (Cell::new(0), Cell::new(0));
    let mut file = Script {
        steps,
        calls: &calls,
        moved: &moved,
    };
    text.clear();
    read_text(&mut file, &mut [0u8; 16], text)
}

// Whether each file is read so.
fn readings_hold(text: &mut Vec<u8>) -> bool {
    for row in &READINGS {
        if read_pieces(row.0, text) != row.1 || text.len() != row.2 {
            return false;
        }
    }
    true
}

#[test]
fn reads_in_pieces(rt: HostRuntime) -> Result<(), Fail> {
    let mut text = b"before".to_vec(rt.alloc())?;
    assert!(rt; readings_hold(&mut text));
    Ok(())
}

// The length of a file, and the answer to its reading.
static LONGEST: [(u64, Result<(), ShelfFault>); 4] = [
    (1_048_576, Ok(())),
    (1_048_577, Err(ShelfFault::TooLong { length: 1_048_577 })),
    (
        4_294_967_296,
        Err(ShelfFault::TooLong {
            length: 4_294_967_296,
        }),
    ),
    (4_294_967_297, Err(ShelfFault::Failed)),
];

// The answer for a file of so many bytes.
fn read_zeros(length: u64, buffer: &mut [u8], text: &mut Vec<u8>) -> Result<(), ShelfFault> {
    text.clear();
    read_text(&mut Zeros(length), buffer, text)
}

// Whether each of the longest files is answered so.
fn longest_hold(buffer: &mut [u8], text: &mut Vec<u8>) -> bool {
    for (length, answer) in &LONGEST {
        if read_zeros(*length, buffer, text) != *answer {
            return false;
        }
    }
    true
}

#[test]
fn reads_of_the_longest_files(rt: HostRuntime) -> Result<(), Fail> {
    let mut text = Vec::new(rt.alloc());
    let mut buffer = vec![in rt.alloc(); 0; 1_048_576]?;
    assert!(rt; longest_hold(&mut buffer, &mut text));
    Ok(())
}

// The length of a file, and the answer with the length of the text.
struct Text(usize, Result<(), ShelfFault>, usize);

static TEXTS: [Text; 4] = [
    Text(0, Ok(()), 0),
    Text(100_000, Ok(()), 100_000),
    Text(1_048_576, Ok(()), 1_048_576),
    Text(1_048_577, Err(ShelfFault::TooLong { length: 1_048_577 }), 0),
];

// Makes a file of so many bytes.
fn write_file(rt: &HostRuntime, path: &str, length: usize) -> io::Result<()> {
    let bytes = vec![in rt.alloc(); b'x'; length]?;
    fs::write(rt, path, bytes.as_slice())
}

// The shelf of the real system, whose methods are called here alone.
struct RealShelf(DirShelf<HostRuntime>);

impl Drop for RealShelf {
    fn drop(self) {
        let RealShelf(_) = self;
    }
}

impl RealShelf {
    fn new(rt: &HostRuntime) -> Result<RealShelf, AllocError> {
        Ok(RealShelf(DirShelf::new(rt, rt.alloc())?))
    }

    fn text(&mut self, name: &str, into: &mut Vec<u8>) -> Result<(), ShelfFault> {
        self.0.text(name, into)
    }
}

// Whether a shelf answers so, and gives a text of so many bytes.
fn is_given(
    alloc: Global,
    shelf: &mut RealShelf,
    name: &str,
    answer: Result<(), ShelfFault>,
    length: usize,
) -> bool {
    match b"before".to_vec(alloc) {
        Ok(mut text) => shelf.text(name, &mut text) == answer && text.len() == length,
        Err(_) => false,
    }
}

// Whether each file is given so.
fn files_hold(rt: &HostRuntime, shelf: &mut RealShelf, path: &str) -> io::Result<bool> {
    for row in &TEXTS {
        write_file(rt, path, row.0)?;
        if !is_given(rt.alloc(), shelf, path, row.1, row.2) {
            return Ok(false);
        }
    }
    Ok(true)
}

// Whether a shelf has no text of this name, and leaves none.
fn has_no_text(alloc: Global, shelf: &mut RealShelf, name: &str) -> bool {
    is_given(alloc, shelf, name, Err(ShelfFault::Failed), 0)
}

// Whether a shelf has no text for a folder nor for a file that isn't there, and has each that is.
fn texts_hold(
    rt: &HostRuntime,
    shelf: &mut RealShelf,
    folder: &str,
    path: &str,
) -> io::Result<bool> {
    if !has_no_text(rt.alloc(), shelf, folder) || !has_no_text(rt.alloc(), shelf, path) {
        return Ok(false);
    }
    files_hold(rt, shelf, path)
}

// The same of a new shelf.
fn shelf_holds(rt: &HostRuntime, folder: &str) -> Result<bool, Fail> {
    let path = path_in(rt.alloc(), folder, "a.ps")?;
    let mut shelf = RealShelf::new(rt)?;
    Ok(texts_hold(rt, &mut shelf, folder, path.as_str())?)
}

#[test]
fn files_of_a_dir_shelf(rt: HostRuntime) -> Result<(), Fail> {
    let folder = folder_of(&rt, "ps_port_files_of_a_dir_shelf")?;
    assert!(rt; shelf_holds(&rt, folder.as_str())?);
    remove(&rt, folder.as_str())?;
    Ok(())
}
