use std::alloc::{AllocError, Global};

/// What the first line of a row begins with.
const MARK: &[u8] = b"=== ";

/// The line between two fields of a row.
const BETWEEN: &[u8] = b"---";

/// A row of a table: the number of its first line, from 1 on, the words of that line, and its fields.
#[derive(Drop)]
pub struct Row {
    pub line: usize,
    pub head: Vec<u8>,
    pub fields: Vec<Vec<u8>>,
}

impl Row {
    /// The field of this number, from 0 on; empty where the row has none.
    pub fn field(&self, number: usize) -> &[u8] {
        match self.fields.get(number) {
            Some(field) => field.as_slice(),
            None => &[],
        }
    }

    /// The number that is the word of this place of the head, or 0 where it is none.
    pub fn number(&self, place: usize) -> usize {
        let mut value = 0usize;
        for digit in self.word(place) {
            if !digit.is_ascii_digit() {
                return 0;
            }
            value = value
                .saturating_mul(10)
                .saturating_add((*digit - b'0') as usize);
        }
        value
    }

    /// The word of this place of the head, from 0 on; empty where it has none. Words are parted by blanks.
    pub fn word(&self, place: usize) -> &[u8] {
        match self.head.split(|byte| *byte == b' ').nth(place) {
            Some(word) => word,
            None => &[],
        }
    }
}

/// The rows of a table.
pub fn rows_of(alloc: Global, table: &[u8]) -> Result<Vec<Row>, AllocError> {
    let mut rows = Vec::new(alloc);
    let mut line = 0usize;
    // whether a field begins with the next line
    let mut is_new = false;
    for text in whole_lines(table).split(|byte| *byte == b'\n') {
        line = line.saturating_add(1);
        if let Some(head) = text.strip_prefix(MARK) {
            rows.push(row_at(alloc, line, head)?)?;
            is_new = true;
        } else if text == BETWEEN {
            is_new = true;
        } else if let Some(row) = rows.last_mut() {
            put_line(alloc, row, text, is_new)?;
            is_new = false;
        }
    }
    Ok(rows)
}

// The bytes without the end of the last line.
fn whole_lines(table: &[u8]) -> &[u8] {
    match table {
        [before @ .., b'\n'] => before,
        _ => table,
    }
}

fn row_at(alloc: Global, line: usize, head: &[u8]) -> Result<Row, AllocError> {
    Ok(Row {
        line,
        head: Vec::from_slice(alloc, head)?,
        fields: Vec::new(alloc),
    })
}

// Puts a line after those of the last field, or begins one with it.
fn put_line(alloc: Global, row: &mut Row, text: &[u8], is_new: bool) -> Result<(), AllocError> {
    if is_new {
        row.fields.push(Vec::from_slice(alloc, text)?)?;
        return Ok(());
    }
    if let Some(field) = row.fields.last_mut() {
        field.push(b'\n')?;
        field.extend_from_slice(text)?;
    }
    Ok(())
}
