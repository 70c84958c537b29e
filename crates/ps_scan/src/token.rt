ghost use Rattle.std.specs.Prelude.{◌≡◌, pos, IfOk};
ghost use Rattle.ps_scan.specs.Tokens.{IsToken, slice_of, int_value, spelled};

use crate::number::decimal_of;
use crate::quoted::spelled_behind_quote;
use ps_base::line::Line;
use std::alloc::{AllocError, Global};

/// What a token is. A word has its place in `word::WORDS`, a mark its place in `mark::MARKS`, as the
/// constants of `word` and `mark` name them.
#[derive(Clone, Copy, PartialEq, Eq, Debug)]
pub enum TokenKind {
    Name,
    Int,
    Text,
    Word(u8),
    Mark(u8),
}

/// The bytes `from..to` of a text, that make up one token, and the line on which they stand.
#[derive(Clone, Copy, PartialEq, Eq, Debug)]
pub struct Token {
    pub what: TokenKind,
    pub line: Line,
    pub from: u32,
    pub to: u32,
}

/// The bytes of a token of the text: the name, where it is one.
pub fn name_of<'a>(text: &'a [u8], token: Token) -> &'a [u8]
    requires { IsToken text.now token }
    ensures { result.now ≡ slice_of text.now token }
{
    &text[token.from as usize..token.to as usize]
}

/// The value of an int of the text, from 0 to 2147483647.
pub fn int_of(text: &[u8], token: Token) -> i32
    requires token_of_text { IsToken text.now token }
    requires int { token.what ≡ TokenKind.Int }
    ensures { result ≡ pos (int_value text.now token) }
{
    decimal_of(name_of(text, token)) as i32
}

/// The bytes that a string of the text spells, at most 65,535. The only error is want of memory.
pub fn spell(alloc: Global, text: &[u8], token: Token) -> Result<Vec<u8>, AllocError>
    requires token_of_text { IsToken text.now token }
    requires string { token.what ≡ TokenKind.Text }
    ensures { IfOk result (λ bytes. bytes.items ≡ spelled text.now token) }
{
    spelled_behind_quote(alloc, name_of(text, token).split_at(1).1)
}
