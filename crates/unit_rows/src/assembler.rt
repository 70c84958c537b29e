//! The assembler: from the words of a code to its bytes, by the table of the instructions alone.

use crate::label::{Label, place_of};
use crate::lexicon::Lexicon;
use crate::words::word_at;
use anyhow::{Error, Result, anyhow};
use row_words::{int_of, number_of};
use std::alloc::Global;

/// What stands before the bytes that are given as such.
const BYTES: &[u8] = b"bytes";

/// The letter of an operand that is an int.
const INT: &[u8] = b"v";

/// The most bytes that are given at once.
const MOST_BYTES: u64 = 65_536;

/// The bytes of the code that these words spell.
pub fn assemble(alloc: Global, lexicon: Lexicon<'_>, text: &[u8]) -> Result<Vec<u8>> {
    let mut assembled = Assembled::new(alloc);
    let refused = assembled.put_text(lexicon, text);
    let Assembled { code, .. } = assembled;
    match refused {
        None => Ok(code),
        Some(words) => Err(refusal(alloc, words)),
    }
}

// Why these words are no code.
fn refusal(alloc: Global, words: &[u8]) -> Error {
    match String::from_utf8_lossy(alloc, words) {
        Ok(words) => anyhow!("no statement and no label: {}", words),
        Err(fault) => Error::from(fault),
    }
}

/// The code so far, the labels that were met, and where the places of labels are wanted.
#[derive(Drop)]
struct Assembled<'a> {
    code: Vec<u8>,
    labels: Vec<Label<'a>>,
    wanted: Vec<Label<'a>>,
}

impl<'a> Assembled<'a> {
    fn new(alloc: Global) -> Assembled<'a> {
        Assembled {
            code: Vec::new(alloc),
            labels: Vec::new(alloc),
            wanted: Vec::new(alloc),
        }
    }

    // Puts a text. Answers the statement that is none, or the label that isn't there.
    fn put_text(&mut self, lexicon: Lexicon<'a>, text: &'a [u8]) -> Option<&'a [u8]> {
        for line in text.split(|byte| *byte == b'\n') {
            if !line.starts_with(b"#") {
                if let Some(refused) = self.put_line(lexicon, line) {
                    return Some(refused);
                }
            }
        }
        put_places(&mut self.code, &self.labels, &self.wanted)
    }

    // Puts the statements of a line. Answers the one that is none.
    fn put_line(&mut self, lexicon: Lexicon<'a>, line: &'a [u8]) -> Option<&'a [u8]> {
        for statement in line.split(|byte| *byte == b';') {
            if self.put_statement(lexicon, statement).is_none() {
                return Some(statement);
            }
        }
        None
    }

    // Puts a label, a name of the table or an instruction.
    fn put_statement(&mut self, lexicon: Lexicon<'a>, statement: &'a [u8]) -> Option<()> {
        match word_at(statement, 0) {
            [] => Some(()),
            [name @ .., b':'] => self.put_label(name),
            name => match lexicon.meaning(name) {
                Some(meaning) => self.put_meaning(lexicon, meaning, word_at(statement, 1)),
                None => self.put_instruction(lexicon, statement),
            },
        }
    }

    fn put_label(&mut self, name: &'a [u8]) -> Option<()> {
        let place = self.code.len();
        self.labels.push(Label { name, place }).ok()
    }

    // Puts the instructions that a name stands for, after which no word stands.
    fn put_meaning(&mut self, lexicon: Lexicon<'a>, meaning: &'a [u8], more: &[u8]) -> Option<()> {
        for instruction in meaning.split(|byte| *byte == b';') {
            self.put_instruction(lexicon, instruction)?;
        }
        more.is_empty().then_some(())
    }

    fn put_instruction(&mut self, lexicon: Lexicon<'a>, statement: &'a [u8]) -> Option<()> {
        let name = word_at(statement, 0);
        if name == BYTES {
            return self.put_bytes(statement);
        }
        let instruction = lexicon.instruction(name)?;
        self.code.push(instruction.code).ok()?;
        self.put_operands(instruction.operands, statement)
    }

    // Puts the operands of these letters, which are all the words after the first.
    fn put_operands(&mut self, letters: &[u8], statement: &'a [u8]) -> Option<()> {
        let mut place = 1usize;
        for letter in letters.split(|byte| *byte == b' ') {
            if !letter.is_empty() {
                self.put_operand(letter, word_at(statement, place))?;
                place = place.saturating_add(1);
            }
        }
        word_at(statement, place).is_empty().then_some(())
    }

    // Puts so many bytes of a value.
    fn put_bytes(&mut self, statement: &[u8]) -> Option<()> {
        let count = number_of(word_at(statement, 1))?;
        let value = number_of(word_at(statement, 2))?;
        let byte = u8::try_from(value).ok()?;
        for _ in 0..count.min(MOST_BYTES) {
            self.code.push(byte).ok()?;
        }
        word_at(statement, 3).is_empty().then_some(())
    }

    // Puts an operand: an int, a number or the place of a label.
    fn put_operand(&mut self, letter: &[u8], word: &'a [u8]) -> Option<()> {
        if letter == INT {
            return self.put_number(int_of(word)?.cast_unsigned());
        }
        if let Some(number) = number_of(word) {
            return self.put_number(u32::try_from(number).ok()?);
        }
        let place = self.code.len();
        self.wanted.push(Label { name: word, place }).ok()?;
        self.put_number(0)
    }

    // Puts a number, low byte first.
    fn put_number(&mut self, number: u32) -> Option<()> {
        self.code.extend_from_slice(&number.to_le_bytes()).ok()
    }
}

// Puts the places of the labels where they are wanted. Answers the name that is no label.
fn put_places<'a>(code: &mut [u8], labels: &[Label<'a>], wanted: &[Label<'a>]) -> Option<&'a [u8]> {
    for label in wanted {
        let Some(place) = place_of(label.name, labels) else {
            return Some(label.name);
        };
        let Ok(place) = u32::try_from(place) else {
            return Some(label.name);
        };
        put_place(code, label.place, place);
    }
    None
}

// Puts a place into the code, low byte first.
fn put_place(code: &mut [u8], at: usize, place: u32) {
    let mut at = at;
    for byte in place.to_le_bytes() {
        if at < code.len() {
            code[at] = byte;
        }
        at = at.saturating_add(1);
    }
}
