ghost use Rattle.std.specs.Prelude.{◌≡◌, ◌∷◌, ◌++◌, [], map, flat_map, replicate, OnOk};
ghost use Rattle.ps_layout.specs.ps_scan.Names.{reserved_words, marks};
ghost use Rattle.ps_layout.specs.Lexemes.{gap_bytes};
ghost use Rattle.ps_layout.specs.Spellings.{int_text, string_text, escaped_byte};
ghost use Rattle.ps_layout.specs.Layout.{name_at};
ghost use Rattle.ps_layout.specs.Waiting.{gap_of};

use itoa::Buffer;
use ps_layout::piece::Gap;
use ps_layout::ps_scan::{mark, word};
use std::alloc::AllocError;

/// Writes what stands before a lexeme, and its spelling.
pub fn write_spelling(text: &mut Vec<u8>, gap: Gap, spelling: &[u8]) -> Result<(), AllocError>
    ensures { OnOk result (text.new.items ≡ text.old.items ++ (gap_bytes (gap_of gap) ++ spelling.now)) }
{
    write_gap(text, gap)?;
    write(text, spelling)
}

/// Writes a reserved word.
pub fn write_word(text: &mut Vec<u8>, gap: Gap, place: u8) -> Result<(), AllocError>
    ensures { OnOk result (text.new.items ≡ text.old.items ++ (gap_bytes (gap_of gap) ++ name_at reserved_words place)) }
{
    write_spelling(text, gap, name_in(&word::SPELLINGS, place))
}

/// Writes a mark.
pub fn write_mark(text: &mut Vec<u8>, gap: Gap, place: u8) -> Result<(), AllocError>
    ensures { OnOk result (text.new.items ≡ text.old.items ++ (gap_bytes (gap_of gap) ++ name_at marks place)) }
{
    write_spelling(text, gap, name_in(&mark::SPELLINGS, place))
}

/// Writes the newline at the end.
pub fn write_end(text: &mut Vec<u8>) -> Result<(), AllocError>
    ensures { OnOk result (text.new.items ≡ text.old.items ++ 10 ∷ []) }
{
    write(text, b"\n")
}

// The name at a place of a table.
fn name_in<'a>(names: &[&'a str], place: u8) -> &'a [u8]
    ensures { result.now ≡ name_at (map (λ name. name.now) names.now) place }
{
    match names.get(place as usize) {
        Some(name) => name.as_bytes(),
        None => b"",
    }
}

/// Writes an int in decimal digits.
pub fn write_int(text: &mut Vec<u8>, gap: Gap, value: u32) -> Result<(), AllocError>
    ensures { OnOk result (text.new.items ≡ text.old.items ++ (gap_bytes (gap_of gap) ++ int_text value)) }
{
    let mut buffer = Buffer::new();
    write_spelling(text, gap, buffer.format(value).as_bytes())
}

/// Writes a string between quotes, with escapes where it has to.
pub fn write_string(text: &mut Vec<u8>, gap: Gap, bytes: &[u8]) -> Result<(), AllocError>
    ensures { OnOk result (text.new.items ≡ text.old.items ++ (gap_bytes (gap_of gap) ++ string_text bytes.now)) }
{
    write_spelling(text, gap, b"\"")?;
    write_escaped(text, bytes)?;
    write(text, b"\"")
}

fn write_escaped(text: &mut Vec<u8>, bytes: &[u8]) -> Result<(), AllocError>
    ensures { OnOk result (text.new.items ≡ text.old.items ++ flat_map escaped_byte bytes.now) }
{
    for byte in bytes {
        write_byte(text, *byte)?;
    }
    Ok(())
}

fn write_byte(text: &mut Vec<u8>, byte: u8) -> Result<(), AllocError>
    ensures { OnOk result (text.new.items ≡ text.old.items ++ escaped_byte byte) }
{
    match byte {
        b'\n' => write(text, b"'n"),
        b'\t' => write(text, b"'t"),
        b'\'' => write(text, b"''"),
        b'"' => write(text, b"'\""),
        _ => write(text, &[byte]),
    }
}

fn write_gap(text: &mut Vec<u8>, gap: Gap) -> Result<(), AllocError>
    ensures { OnOk result (text.new.items ≡ text.old.items ++ gap_bytes (gap_of gap)) }
{
    match gap {
        Gap::Nothing => Ok(()),
        Gap::Blank => write(text, b" "),
        Gap::Newline(indent) => write_line(text, indent),
    }
}

// A newline, and so many blanks.
fn write_line(text: &mut Vec<u8>, indent: usize) -> Result<(), AllocError>
    ensures { OnOk result (text.new.items ≡ text.old.items ++ 10 ∷ replicate indent 32) }
{
    write(text, b"\n")?;
    for _ in 0..indent {
        text.push(b' ')?;
    }
    Ok(())
}

fn write(text: &mut Vec<u8>, bytes: &[u8]) -> Result<(), AllocError>
    ensures { OnOk result (text.new.items ≡ text.old.items ++ bytes.now) }
{
    text.extend_from_slice(bytes)?;
    Ok(())
}
