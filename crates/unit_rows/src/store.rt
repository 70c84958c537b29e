//! Stores of objects, as the rows of tables spell them.

use crate::assembler::assemble;
use crate::label::{Label, place_of};
use crate::lexicon::Lexicon;
use crate::text_form::bytes_of;
use anyhow::{Error, Result, anyhow};
use row_words::{Words, int_of, number_of, parted};
use std::alloc::Global;

// 1 in the upper half of a word.
const MANY: u64 = 1 << 32;

// The word of a reference, without the PID.
const PID: u64 = 1 << 63;

// The numbers of kinds.
const TEXT: u64 = 1;

const CODE: u64 = 6;

/// The words of a store from word 0 on, and the PIDs of its objects in their order.
#[derive(Drop)]
pub struct Store {
    pub words: Vec<u64>,
    pub pids: Vec<u64>,
}

impl Store {
    /// A store without objects.
    pub fn new(alloc: Global) -> Store {
        Store {
            words: Vec::new(alloc),
            pids: Vec::new(alloc),
        }
    }

    /// The PID of the object of this place, from 1 on.
    pub fn pid(&self, place: u64) -> Option<u64> {
        let index = usize::try_from(place.checked_sub(1)?).ok()?;
        self.pids.get(index).copied()
    }
}

/// The store of these lines, of which each has an object.
pub fn store_of(alloc: Global, lexicon: Lexicon<'_>, text: &[u8]) -> Result<Store> {
    let mut laid = Laid::new(alloc);
    let refused = laid.put_lines(alloc, lexicon, text);
    let Laid { words, pids, .. } = laid;
    match refused {
        None => Ok(Store { words, pids }),
        Some(line) => Err(refusal(alloc, line)),
    }
}

// Why this line is no object.
fn refusal(alloc: Global, line: &[u8]) -> Error {
    match String::from_utf8_lossy(alloc, line) {
        Ok(line) => anyhow!("no object of a store: {}", line),
        Err(fault) => Error::from(fault),
    }
}

/// The objects so far, with their names, and where the PIDs of names are wanted.
#[derive(Drop)]
struct Laid<'a> {
    words: Vec<u64>,
    pids: Vec<u64>,
    names: Vec<Label<'a>>,
    wanted: Vec<Label<'a>>,
}

impl<'a> Laid<'a> {
    fn new(alloc: Global) -> Laid<'a> {
        Laid {
            words: Vec::new(alloc),
            pids: Vec::new(alloc),
            names: Vec::new(alloc),
            wanted: Vec::new(alloc),
        }
    }

    // Puts word 0 and the objects of these lines. Returns the line that is none, or the name that no object has.
    fn put_lines(
        &mut self,
        alloc: Global,
        lexicon: Lexicon<'a>,
        text: &'a [u8],
    ) -> Option<&'a [u8]> {
        if self.put_word(0).is_none() {
            return Some(text);
        }
        for line in text.split(|byte| *byte == b'\n') {
            if !line.starts_with(b"#") && self.put_line(alloc, lexicon, line).is_none() {
                return Some(line);
            }
        }
        put_references(&mut self.words, &self.names, &self.wanted)
    }

    // Puts the object of a line: its name, its kind, and what it holds.
    fn put_line(&mut self, alloc: Global, lexicon: Lexicon<'a>, line: &'a [u8]) -> Option<()> {
        let mut words = Words::of(line);
        let name = words.word();
        if name.is_empty() {
            return Some(());
        }
        let place = self.words.len();
        self.names.push(Label { name, place }).ok()?;
        self.pids.push(place as u64).ok()?;
        match words.word() {
            b"text" => self.put_text(alloc, words.rest()),
            b"code" => self.put_code(alloc, lexicon, words.rest()),
            kind => self.put_object(kind_of(kind)?, words.rest()),
        }
    }

    fn put_text(&mut self, alloc: Global, spelled: &[u8]) -> Option<()> {
        let bytes = bytes_of(alloc, spelled).ok()?;
        self.put_header(TEXT, 0, words_for(&bytes).checked_add(1)?, bytes.len())?;
        self.put_word(0)?;
        self.put_bytes(&bytes)
    }

    // Puts code: the four numbers of its frame, its constants, and its instructions.
    fn put_code(&mut self, alloc: Global, lexicon: Lexicon<'a>, spelled: &'a [u8]) -> Option<()> {
        let (frame, rest) = parted(spelled, b':');
        let (constants, text) = parted(rest, b':');
        let code = assemble(alloc, lexicon, text).ok()?;
        let numbers = words_for(&code).checked_add(2)?;
        self.put_header(CODE, count_of(constants), numbers, code.len())?;
        self.put_references(constants)?;
        self.put_word(0)?;
        self.put_word(frame_of(frame)?)?;
        self.put_bytes(&code)
    }

    // Puts an object of another kind: its references, and after the home its number words.
    fn put_object(&mut self, kind: u64, spelled: &'a [u8]) -> Option<()> {
        let (references, numbers) = parted(spelled, b':');
        self.put_header(
            kind,
            count_of(references),
            count_of(numbers).checked_add(1)?,
            0,
        )?;
        self.put_references(references)?;
        self.put_word(0)?;
        self.put_numbers(numbers)
    }

    fn put_header(
        &mut self,
        kind: u64,
        references: usize,
        numbers: usize,
        bytes: usize,
    ) -> Option<()> {
        self.put_word(with_half(kind, references)?)?;
        self.put_word(0)?;
        self.put_word(with_half(numbers as u64, bytes)?)?;
        self.put_word(0)
    }

    // Puts references: `nil`, the number of a PID, or the name of an object.
    fn put_references(&mut self, spelled: &'a [u8]) -> Option<()> {
        for word in spelled.split(|byte| *byte == b' ') {
            if !word.is_empty() {
                self.put_reference(word)?;
            }
        }
        Some(())
    }

    fn put_reference(&mut self, word: &'a [u8]) -> Option<()> {
        if let Some(pid) = number_of(word) {
            return self.put_word(PID.checked_add(pid)?);
        }
        match word {
            b"nil" => self.put_word(0),
            name => {
                let place = self.words.len();
                self.wanted.push(Label { name, place }).ok()?;
                self.put_word(0)
            }
        }
    }

    fn put_numbers(&mut self, spelled: &[u8]) -> Option<()> {
        for word in spelled.split(|byte| *byte == b' ') {
            if !word.is_empty() {
                self.put_word(word_of(word)?)?;
            }
        }
        Some(())
    }

    // Puts bytes, eight in a word, the first in its low byte.
    fn put_bytes(&mut self, bytes: &[u8]) -> Option<()> {
        for chunk in bytes.chunks(8) {
            let mut word = 0u64;
            for byte in chunk.iter().rev() {
                word = word << 8 | u64::from(*byte);
            }
            self.put_word(word)?;
        }
        Some(())
    }

    fn put_word(&mut self, word: u64) -> Option<()> {
        self.words.push(word).ok()
    }
}

// The number of a kind, by its name.
fn kind_of(name: &[u8]) -> Option<u64> {
    match name {
        b"structure" => Some(2),
        b"vector" => Some(3),
        b"scope" => Some(4),
        b"closure" => Some(5),
        b"table" => Some(7),
        b"node" => Some(8),
        _ => None,
    }
}

// A word with this in its lower half, and that in its upper one.
fn with_half(low: u64, high: usize) -> Option<u64> {
    (high as u64).checked_mul(MANY)?.checked_add(low)
}

// How many words these bytes take.
fn words_for(bytes: &[u8]) -> usize {
    bytes.len().div_ceil(8)
}

// How many words are spelled.
fn count_of(spelled: &[u8]) -> usize {
    let mut count = 0usize;
    for word in spelled.split(|byte| *byte == b' ') {
        if !word.is_empty() {
            count = count.saturating_add(1);
        }
    }
    count
}

// The word that an int or a number spells.
fn word_of(spelled: &[u8]) -> Option<u64> {
    match number_of(spelled) {
        Some(number) => Some(number),
        None => Some(i64::from(int_of(spelled)?).cast_unsigned()),
    }
}

// The word of a frame: four numbers of 16 bits, from its low end.
fn frame_of(spelled: &[u8]) -> Option<u64> {
    let mut frame = 0u64;
    let mut shift = 0u32;
    for word in spelled.split(|byte| *byte == b' ') {
        if !word.is_empty() {
            let number = u16::try_from(number_of(word)?).ok()?;
            frame |= u64::from(number).checked_shl(shift)?;
            shift = shift.saturating_add(16);
        }
    }
    (shift == 64).then_some(frame)
}

// Puts the PIDs of names where they are wanted. Returns the name that no object has.
fn put_references<'a>(
    words: &mut [u64],
    names: &[Label<'a>],
    wanted: &[Label<'a>],
) -> Option<&'a [u8]> {
    for label in wanted {
        match place_of(label.name, names) {
            Some(place) => put_at(words, label.place, PID | place as u64),
            None => return Some(label.name),
        }
    }
    None
}

fn put_at(words: &mut [u64], place: usize, word: u64) {
    if place < words.len() {
        words[place] = word;
    }
}
