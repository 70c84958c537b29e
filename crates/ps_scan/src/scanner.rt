ghost use Rattle.std.specs.Prelude.{◌≡◌, ◌≢◌, ◌+◌, ◌^◌, ◌<◌, ◌≤◌, length, All, IfOk, IfErr, List, ℕ};
ghost use Rattle.ps_base.specs.Limits.{most_text_bytes};
ghost use Rattle.ps_scan.specs.declared.fault.ScanFault.{ScanFault};
ghost use Rattle.ps_scan.specs.declared.token.Token.{Token};
ghost use Rattle.ps_scan.specs.Tokens.{HasTokens, HasFault, token_at, IsToken, IsInOrder, StandsAt};

use crate::fault::ScanFault;
use crate::piece::{Piece, piece_at};
use crate::token::{Token, TokenKind};
use ps_base::line::Line;
use std::alloc::Global;

/// The tokens of a text of at most 1,048,576 bytes, in order, or the first fault in it. `Memory`
/// is answered where there is none for the tokens, 16 bytes each.
pub fn scan(alloc: Global, text: &[u8]) -> Result<Vec<Token>, ScanFault>
    requires { length text.now ≤ most_text_bytes }
    ensures tokens { IfOk result (λ tokens. HasTokens text.now tokens.items) }
    ensures slices { IfOk result (λ tokens. All (IsToken text.now) tokens.items) }
    ensures in_order { IfOk result (λ tokens. IsInOrder 0 tokens.items) }
    ensures fault { IfErr result (λ fault. fault ≢ ScanFault.Memory → HasFault text.now fault) }
{
    let mut tokens = Vec::new(alloc);
    let mut at = 0usize;
    let mut line = Line(1);
    loop {
        match piece_at(text, at, line) {
            Piece::End => return Ok(tokens),
            Piece::Blank => at += 1,
            Piece::Newline => {
                at += 1;
                line = Line(line.0 + 1);
            }
            Piece::Comment { length } => at += length as usize,
            Piece::Token { what, length } => {
                let token = token_at(what, line, at as u32, length);
                tokens.push(token)?;
                at = token.to as usize;
            }
            Piece::Fault(fault) => return Err(fault),
        }
    }
}

/// The token of the kind and length at the place.
fn token_at(what: TokenKind, line: Line, from: u32, length: u32) -> Token
    requires { from + length < 2 ^ 32 }
    ensures { result ≡ token_at what line.0 from length }
{
    Token {
        what,
        line,
        from,
        to: from + length,
    }
}

/// Each token that a text has is a slice of it, spelled as its kind is, and begins at or after the
/// end of the one before.
pub fn tokens_are_slices(text: &[u8], tokens: &[Token])
    requires { HasTokens text.now tokens.now }
    ensures slices { All (IsToken text.now) tokens.now }
    ensures in_order { IsInOrder 0 tokens.now }
{}

/// A text has at most one list of tokens.
pub fn tokens_are_unique()
    ensures { (text : List ℕ) (tokens others : List Token) → HasTokens text tokens → HasTokens text others → tokens ≡ others }
{}

/// A text has at most one first fault.
pub fn fault_is_unique()
    ensures { (text : List ℕ) (fault other : ScanFault) → HasFault text fault → HasFault text other → fault ≡ other }
{}

/// A fault stands at a place of the text, and has the line of that place.
pub fn fault_stands_on_its_line()
    ensures { (text : List ℕ) (fault : ScanFault) → HasFault text fault → (place : ℕ) × StandsAt text fault place }
{}

/// A text that has tokens has no fault.
pub fn tokens_exclude_fault()
    ensures { (text : List ℕ) (tokens : List Token) (fault : ScanFault) → HasTokens text tokens → HasFault text fault → ⊥ }
{}
