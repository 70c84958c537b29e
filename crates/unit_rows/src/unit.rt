//! The units of rows.

use crate::assembler::assemble;
use crate::table::Table;
use crate::text_form::bytes_of;
use crate::words::word_at;
use anyhow::{Context, Result, bail};
use ps_base::bytes::Bytes;
use ps_base::code_unit::{CodeUnit, Constant, Frame};
use ps_base::list::List;
use row_words::table_rows::Row;
use row_words::{number_of, parted};
use std::alloc::{AllocError, Global};

/// What the field of a body begins with.
const BODY: &[u8] = b"body ";

/// The unit of a row, with this frame and at most so many bytes of its code: its constants are its bodies and the constants of the table after them.
pub fn unit_of(
    alloc: Global,
    table: Table<'_>,
    frame: Frame,
    cut: usize,
    row: &Row,
) -> Result<CodeUnit> {
    let mut code = assemble(alloc, table.lexicon, row.field(0))?;
    code.truncate(cut);
    let constants = constants_of(alloc, table, &row.fields)?;
    Ok(unit_with(code, constants, frame))
}

// A unit of these parts.
fn unit_with(code: Vec<u8>, constants: Vec<Constant>, frame: Frame) -> CodeUnit {
    CodeUnit {
        code: Bytes::new(code),
        constants: List::new(constants),
        frame,
    }
}

// The bodies of these fields, and after them the constants of the table.
fn constants_of(alloc: Global, table: Table<'_>, fields: &[Vec<u8>]) -> Result<Vec<Constant>> {
    let mut constants = Vec::new(alloc);
    put_bodies(alloc, table, fields, &mut constants)?;
    put_constants(alloc, table.constants, &mut constants)?;
    Ok(constants)
}

// The constants of these lines.
fn constants_given(alloc: Global, lines: &[u8]) -> Result<Vec<Constant>> {
    let mut constants = Vec::new(alloc);
    put_constants(alloc, lines, &mut constants)?;
    Ok(constants)
}

// Puts the bodies of these fields.
fn put_bodies(
    alloc: Global,
    table: Table<'_>,
    fields: &[Vec<u8>],
    constants: &mut Vec<Constant>,
) -> Result<()> {
    for field in fields {
        if field.starts_with(BODY) {
            let body = body_of(alloc, table, field.as_slice())?;
            put_unit(alloc, body, constants)?;
        }
    }
    Ok(())
}

// The unit of a body: its frame stands in the first line, and its constants are those of the table.
fn body_of(alloc: Global, table: Table<'_>, field: &[u8]) -> Result<CodeUnit> {
    let (head, text) = parted(field, b'\n');
    let frame = frame_of(head).context("a frame without its four numbers")?;
    let code = assemble(alloc, table.lexicon, text)?;
    let constants = constants_given(alloc, table.constants)?;
    Ok(unit_with(code, constants, frame))
}

// The frame of a body.
fn frame_of(head: &[u8]) -> Option<Frame> {
    Some(Frame {
        nums: count_at(head, 1)?,
        refs: count_at(head, 2)?,
        num_params: count_at(head, 3)?,
        ref_params: count_at(head, 4)?,
    })
}

// The number of the frame that is the word of this place.
fn count_at(head: &[u8], place: usize) -> Option<u16> {
    u16::try_from(number_of(word_at(head, place))?).ok()
}

// Puts the constants of these lines after others.
fn put_constants(alloc: Global, lines: &[u8], constants: &mut Vec<Constant>) -> Result<()> {
    for line in lines.split(|byte| *byte == b'\n') {
        let (kind, text) = parted(line, b' ');
        match kind {
            b"text" => put_text(alloc, text, constants)?,
            b"unit" => put_unit(alloc, empty_unit(alloc), constants)?,
            b"" | b"#" => {}
            _ => bail!("a constant that is neither a text nor a unit"),
        }
    }
    Ok(())
}

// Puts a text that is written in a line.
fn put_text(alloc: Global, line: &[u8], constants: &mut Vec<Constant>) -> Result<(), AllocError> {
    let bytes = bytes_of(alloc, line)?;
    constants.push(Constant::Text(Bytes::new(bytes)))?;
    Ok(())
}

// Puts a unit.
fn put_unit(
    alloc: Global,
    unit: CodeUnit,
    constants: &mut Vec<Constant>,
) -> Result<(), AllocError> {
    let constant = Constant::of_unit(alloc, unit)?;
    constants.push(constant)?;
    Ok(())
}

// A unit without code.
fn empty_unit(alloc: Global) -> CodeUnit {
    let frame = Frame {
        nums: 0,
        refs: 0,
        num_params: 0,
        ref_params: 0,
    };
    unit_with(Vec::new(alloc), Vec::new(alloc), frame)
}
