use crate::instruction::Instruction;
use crate::words::word_at;
use row_words::{number_of, parted};

/// The words that code is written in: a text with a line for each instruction, and one with a line for each name of a table.
#[derive(Clone, Copy)]
pub struct Lexicon<'a> {
    pub instructions: &'a [u8],
    pub names: &'a [u8],
}

impl<'a> Lexicon<'a> {
    /// The instruction of this name.
    pub fn instruction(self, name: &[u8]) -> Option<Instruction<'a>> {
        for line in self.instructions.split(|byte| *byte == b'\n') {
            if word_at(line, 0) == name {
                let code = number_of(word_at(line, 1))?;
                let (_, behind) = parted(line, b' ');
                let (_, operands) = parted(behind, b' ');
                return Some(Instruction {
                    code: u8::try_from(code).ok()?,
                    operands,
                });
            }
        }
        None
    }

    /// The instructions that this name stands for.
    pub fn meaning(self, name: &[u8]) -> Option<&'a [u8]> {
        for line in self.names.split(|byte| *byte == b'\n') {
            let (named, meaning) = parted(line, b'=');
            if word_at(named, 0) == name {
                return Some(meaning);
            }
        }
        None
    }
}
