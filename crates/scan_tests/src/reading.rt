//! A text cut into its tokens.

ghost use Rattle.std.specs.Prelude.{All, IfSome};
ghost use Rattle.ps_symbols.specs.ps_scan.Tokens.{HasTokens, IsToken};

use ps_base::LONGEST_TEXT;
use ps_symbols::ps_scan::{Token, scan};
use std::alloc::Global;

/// The tokens of a text, where it is not too long and has no fault of the scanner.
pub fn tokens_of(alloc: Global, text: &[u8]) -> Option<Vec<Token>>
    ensures tokens { IfSome result (λ tokens. HasTokens text.now tokens.items) }
    ensures slices { IfSome result (λ tokens. All (IsToken text.now) tokens.items) }
{
    if text.len() > LONGEST_TEXT {
        return None;
    }
    match scan(alloc, text) {
        Ok(tokens) => Some(tokens),
        Err(_) => None,
    }
}
