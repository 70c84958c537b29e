//! Words of a line, and the numbers that they spell.

/// No bytes.
const NOTHING: &[u8] = &[];

/// The words of a line that aren't read yet. They are parted by blanks.
#[derive(Clone, Copy)]
pub struct Words<'a> {
    rest: &'a [u8],
}

impl<'a> Words<'a> {
    /// All words of a line.
    pub fn of(line: &'a [u8]) -> Words<'a> {
        Words { rest: line }
    }

    /// The next word; empty where there is none.
    pub fn word(&mut self) -> &'a [u8] {
        let (word, rest) = parted(self.rest, b' ');
        self.rest = rest;
        word
    }

    /// The number that the next word spells, if it spells one.
    pub fn number(&mut self) -> Option<u64> {
        number_of(self.word())
    }

    /// The index that the next word spells, if it spells one.
    pub fn index(&mut self) -> Option<u32> {
        index_of(self.word())
    }

    /// The int that the next word spells, if it spells one.
    pub fn int(&mut self) -> Option<i32> {
        int_of(self.word())
    }

    /// What is left of the line.
    pub fn rest(&self) -> &'a [u8] {
        self.rest
    }

    /// Whether no word is left.
    pub fn is_at_end(&self) -> bool {
        self.rest.is_empty()
    }
}

/// The words of the area that a field tells of by `area N`, or so many where it is empty.
pub fn area_of(field: &[u8], otherwise: u32) -> Option<u32> {
    let mut words = Words::of(field);
    match words.word() {
        b"" => Some(otherwise),
        b"area" => words.index(),
        _ => None,
    }
}

/// The number that a word spells, in decimal or after `0x` in hex.
pub fn number_of(word: &[u8]) -> Option<u64> {
    match word.strip_prefix(b"0x") {
        Some(digits) => u64::from_str_radix(str::from_utf8(digits).ok()?, 16).ok(),
        None => str::from_utf8(word).ok()?.parse::<u64>().ok(),
    }
}

/// The index that a word spells.
pub fn index_of(word: &[u8]) -> Option<u32> {
    u32::try_from(number_of(word)?).ok()
}

/// The int that a word spells.
pub fn int_of(word: &[u8]) -> Option<i32> {
    str::from_utf8(word).ok()?.parse::<i32>().ok()
}

/// What stands before the first byte of this value, and what stands after it; all and nothing where there is none.
pub fn parted(text: &[u8], byte: u8) -> (&[u8], &[u8]) {
    match text.iter().position(|found| *found == byte) {
        Some(at) => (&text[..at], &text[at + 1..]),
        None => (text, NOTHING),
    }
}
