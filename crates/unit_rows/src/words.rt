//! Words and lines of a text.

/// No bytes.
const NOTHING: &[u8] = &[];

/// The word of this place, from 0 on; empty where there is none. Words are parted by blanks.
pub fn word_at(text: &[u8], place: usize) -> &[u8] {
    let mut number = 0usize;
    for word in text.split(|byte| *byte == b' ') {
        if !word.is_empty() {
            if number == place {
                return word;
            }
            number = number.saturating_add(1);
        }
    }
    NOTHING
}

/// The line of this place, from 0 on; empty where there is none.
pub fn line_at(text: &[u8], place: usize) -> &[u8] {
    match text.split(|byte| *byte == b'\n').nth(place) {
        Some(line) => line,
        None => NOTHING,
    }
}
