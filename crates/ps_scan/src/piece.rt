ghost use Rattle.std.specs.Prelude.{◌≡◌, ◌≤◌, ◌==◌, length, drop, not};
ghost use Rattle.std.specs.List.{take_while, AllPass, prefix_len};
ghost use Rattle.std.specs.Char.{is_ascii_digit};
ghost use Rattle.ps_base.specs.Limits.{most_text_bytes};
ghost use Rattle.ps_scan.specs.Class.{is_name_byte};
ghost use Rattle.ps_scan.specs.declared.piece.Piece.TheVariants.{Comment};
ghost use Rattle.ps_scan.specs.Names.{word_place};
ghost use Rattle.ps_scan.specs.Piece.{comment, word_or_name, int, double_mark_here, single_mark, mark, first_piece};

use crate::class::{Class, class_of, is_name_byte};
use crate::fault::ScanFault;
use crate::mark::mark_place;
use crate::number::{LARGEST_INT, decimal_of};
use crate::quoted::string_piece;
use crate::token::TokenKind;
use crate::word::word_place;
use ps_base::line::Line;

/// The most bytes that a name may have.
const LONGEST_NAME: u32 = 64;

/// What the rest of a text begins with.
#[derive(Clone, Copy)]
pub enum Piece {
    End,
    Blank,
    Newline,
    Comment { length: u32 },
    Token { what: TokenKind, length: u32 },
    Fault(ScanFault),
}

/// What the text begins with from the place on, which is on the line.
pub fn piece_at(text: &[u8], at: usize, line: Line) -> Piece
    requires size { length text.now ≤ most_text_bytes }
    requires place { at ≤ length text.now }
    ensures { result ≡ first_piece line (drop at text.now) }
{
    first_piece(text.split_at(at).1, line)
}

#[tactic(auto, unfolding(crate::specs::Piece::first_piece, crate::specs::Piece::piece_of))]
fn first_piece(rest: &[u8], line: Line) -> Piece
    requires { length rest.now ≤ most_text_bytes }
    ensures { result ≡ first_piece line rest.now }
{
    let Some(&byte) = rest.first() else {
        return Piece::End;
    };
    match class_of(byte) {
        Class::Blank => Piece::Blank,
        Class::Newline => Piece::Newline,
        Class::Comment => comment(rest),
        Class::Letter => word_or_name(name_run(rest), line),
        Class::Digit => int(digit_run(rest), line),
        Class::Quote => string_piece(rest.split_at(1).1, line),
        Class::Other => mark(byte, rest.split_at(1).1, line),
    }
}

fn comment(rest: &[u8]) -> Piece
    requires { length rest.now ≤ most_text_bytes }
    ensures { result ≡ Comment (length (comment rest.now)) }
{
    Piece::Comment {
        length: comment_length(rest) as u32,
    }
}

fn comment_length(rest: &[u8]) -> usize
    ensures length { result ≡ length (comment rest.now) }
    ensures within { result ≤ length rest.now }
{
    rest.iter().take_while(|byte| **byte != b'\n').count()
}

fn name_run<'a>(rest: &'a [u8]) -> &'a [u8]
    ensures { result.now ≡ take_while is_name_byte rest.now }
{
    rest.split_at(name_length(rest)).0
}

fn name_length(rest: &[u8]) -> usize
    ensures length { result ≡ prefix_len is_name_byte rest.now }
    ensures within { result ≤ length rest.now }
{
    rest.iter().take_while(|byte| is_name_byte(**byte)).count()
}

fn digit_run<'a>(rest: &'a [u8]) -> &'a [u8]
    ensures digits { AllPass is_ascii_digit result.now }
    ensures run { result.now ≡ take_while is_ascii_digit rest.now }
{
    rest.split_at(digits_length(rest)).0
}

fn digits_length(rest: &[u8]) -> usize
    ensures length { result ≡ prefix_len is_ascii_digit rest.now }
    ensures within { result ≤ length rest.now }
{
    rest.iter().take_while(|byte| byte.is_ascii_digit()).count()
}

#[tactic(auto, unfolding(crate::specs::Piece::word_or_name))]
fn word_or_name(run: &[u8], line: Line) -> Piece
    requires { length run.now ≤ most_text_bytes }
    ensures { result ≡ word_or_name line run.now (word_place run.now) }
{
    let length = run.len() as u32;
    let what = match word_place(run) {
        Some(place) => TokenKind::Word(place),
        None if length <= LONGEST_NAME => TokenKind::Name,
        None => return Piece::Fault(ScanFault::NameTooLong { line, length }),
    };
    Piece::Token { what, length }
}

#[tactic(auto, unfolding(crate::specs::Piece::int))]
fn int(digits: &[u8], line: Line) -> Piece
    requires size { length digits.now ≤ most_text_bytes }
    requires digits { AllPass is_ascii_digit digits.now }
    ensures { result ≡ int line digits.now }
{
    if decimal_of(digits) > LARGEST_INT {
        return Piece::Fault(ScanFault::IntTooLarge { line });
    }
    Piece::Token {
        what: TokenKind::Int,
        length: digits.len() as u32,
    }
}

#[tactic(auto, unfolding(crate::specs::Piece::mark))]
fn mark(byte: u8, rest: &[u8], line: Line) -> Piece
    ensures { result ≡ mark line byte (double_mark_here byte rest.now) (single_mark byte) }
{
    let (place, length) = if let Some(place) = double_mark_here(byte, rest) {
        (place, 2)
    } else if let Some(place) = single_mark(byte) {
        (place, 1)
    } else {
        return Piece::Fault(ScanFault::BadByte { line, byte });
    };
    Piece::Token {
        what: TokenKind::Mark(place),
        length,
    }
}

fn double_mark_here(first: u8, rest: &[u8]) -> Option<u8>
    ensures { result ≡ double_mark_here first rest.now }
{
    let second = *rest.first()?;
    mark_place(&[first, second])
}

fn single_mark(byte: u8) -> Option<u8>
    ensures { result ≡ single_mark byte }
{
    mark_place(&[byte])
}
