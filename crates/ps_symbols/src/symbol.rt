ghost use Rattle.std.specs.Prelude.{◌≡◌, ◌^◌, ◌<◌, ◌++◌, ◌∷◌, [], length, IfOk, OnOk};
ghost use Rattle.ps_symbols.specs.Symbols.{breaks, between, semicolon_behind, symbol, symbols};

use crate::kind::{Kind, kind_of};
use crate::newline::{can_continue, can_end};
use ps_scan::{Token, TokenKind, mark};
use std::alloc::{AllocError, Global};

/// A token as the grammar reads it. A `;` that a newline stands for is one too: it has the line of
/// the token before it and the number of the token after it.
#[derive(Clone, Copy)]
pub struct Symbol {
    pub kind: Kind,
    /// How many tokens stand before it.
    pub number: u32,
    pub token: Token,
}

/// The tokens of a text as the grammar reads them: with a `;` between two neighbouring ones on
/// different lines exactly where the first can end a clause and the second can't continue one.
pub fn symbols(alloc: Global, tokens: &[Token]) -> Result<Vec<Symbol>, AllocError>
    requires { length tokens.now < 2 ^ 32 }
    ensures { IfOk result (λ read. read.items ≡ symbols tokens.now) }
{
    let mut symbols = Vec::new(alloc);
    let mut last = None;
    let mut number = 0u32;
    for token in tokens {
        push_read(&mut symbols, last, number, *token)?;
        last = Some(*token);
        number += 1;
    }
    Ok(symbols)
}

/// Adds what is read from the token before to this one, which has the number.
fn push_read(
    symbols: &mut Vec<Symbol>,
    last: Option<Token>,
    number: u32,
    token: Token,
) -> Result<(), AllocError>
    ensures { OnOk result (symbols.new.items ≡ symbols.old.items ++ (between last number token ++ symbol number token ∷ [])) }
{
    if let Some(last) = last {
        if breaks(last, token) {
            symbols.push(read_as(number, semicolon_behind(last)))?;
        }
    }
    symbols.push(read_as(number, token))?;
    Ok(())
}

/// Whether a `;` is read between two neighbouring tokens.
fn breaks(first: Token, second: Token) -> bool
    ensures { result ≡ breaks first second }
{
    first.line.0 < second.line.0
        && can_end(kind_of(first.what))
        && !can_continue(kind_of(second.what))
}

fn semicolon_behind(token: Token) -> Token
    ensures { result ≡ semicolon_behind token }
{
    Token {
        what: TokenKind::Mark(mark::SEMICOLON),
        line: token.line,
        from: token.to,
        to: token.to,
    }
}

fn read_as(number: u32, token: Token) -> Symbol
    ensures { result ≡ symbol number token }
{
    Symbol {
        kind: kind_of(token.what),
        number,
        token,
    }
}
