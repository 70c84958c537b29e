ghost use Rattle.std.specs.Prelude.{◌≡◌, ◌+◌, ◌-◌, ◌≤◌, ℕ, List, ◌∷◌, length, IfOk};
ghost use Rattle.ps_base.specs.Limits.{most_text_bytes};
ghost use Rattle.ps_scan.specs.Piece.{quoted, behind_apostrophe, string, bytes_of, Closes};
ghost use Rattle.ps_scan.specs.inside.Strings.{goes_on, IsWithin};

use crate::class::{Inner, escaped, inner_of};
use crate::fault::ScanFault;
use crate::piece::Piece;
use crate::token::TokenKind;
use ps_base::line::Line;
use std::alloc::{AllocError, Global};

/// The most bytes that a string may spell.
const LONGEST_STRING: u32 = 65535;

/// What stands next in a string.
#[derive(Clone, Copy)]
pub enum Inside {
    Spelled { byte: u8, length: usize },
    Closed,
    Open,
    BadByte(u8),
    BadEscape(u8),
}

#[tactic(auto, unfolding(crate::specs::Piece::quoted))]
fn next_inside(rest: &[u8]) -> Inside
    ensures meaning { quoted rest.now ≡ goes_on result rest.now }
    ensures within { IsWithin result (length rest.now) }
{
    let Some(&byte) = rest.first() else {
        return Inside::Open;
    };
    match inner_of(byte) {
        Inner::Plain => Inside::Spelled { byte, length: 1 },
        Inner::Apostrophe => behind_apostrophe(rest.split_at(1).1),
        Inner::Quote => Inside::Closed,
        Inner::Newline => Inside::Open,
        Inner::Other => Inside::BadByte(byte),
    }
}

#[tactic(auto, unfolding(crate::specs::Piece::quoted, crate::specs::Piece::behind_apostrophe))]
fn behind_apostrophe(rest: &[u8]) -> Inside
    ensures meaning { (byte : ℕ) → behind_apostrophe rest.now ≡ goes_on result (byte ∷ rest.now) }
    ensures within { IsWithin result (length rest.now + 1) }
{
    let Some(&byte) = rest.first() else {
        return Inside::Open;
    };
    match escaped(byte) {
        Some(byte) => Inside::Spelled { byte, length: 2 },
        None => Inside::BadEscape(byte),
    }
}

/// The piece of a text that a string is, from the bytes after its opening quote.
pub fn string_piece(rest: &[u8], line: Line) -> Piece
    requires { length rest.now ≤ most_text_bytes }
    ensures { result ≡ string line (quoted rest.now) }
{
    let mut at = 0;
    let mut spelled = 0u32;
    loop {
        match next_inside(rest.split_at(at).1) {
            Inside::Spelled { length, .. } => {
                at += length;
                spelled += 1;
            }
            Inside::Closed => return closed_string(spelled, at as u32 + 2, line),
            Inside::Open => return Piece::Fault(ScanFault::OpenString { line }),
            Inside::BadByte(byte) => return Piece::Fault(ScanFault::BadByte { line, byte }),
            Inside::BadEscape(byte) => return Piece::Fault(ScanFault::BadEscape { line, byte }),
        }
    }
}

#[tactic(auto, unfolding(crate::specs::Piece::string))]
fn closed_string(spelled: u32, taken: u32, line: Line) -> Piece
    ensures { (bytes : List ℕ) (n : ℕ) → length bytes ≡ spelled → 1 + n ≡ taken → result ≡ string line (Closes bytes n) }
{
    if spelled > LONGEST_STRING {
        return Piece::Fault(ScanFault::StringTooLong {
            line,
            length: spelled,
        });
    }
    Piece::Token {
        what: TokenKind::Text,
        length: taken,
    }
}

/// The bytes that a closed string spells, from the bytes after its opening quote.
pub fn spelled_behind_quote(alloc: Global, rest: &[u8]) -> Result<Vec<u8>, AllocError>
    requires { quoted rest.now ≡ Closes (bytes_of (quoted rest.now)) (length rest.now) }
    ensures { IfOk result (λ bytes. bytes.items ≡ bytes_of (quoted rest.now)) }
{
    let mut bytes = Vec::new(alloc);
    let mut at = 0;
    while let Inside::Spelled { byte, length } = next_inside(rest.split_at(at).1) {
        bytes.push(byte)?;
        at += length;
    }
    Ok(bytes)
}
