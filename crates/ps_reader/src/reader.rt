ghost use Rattle.std.specs.Prelude.{◌≡◌, ◌≤◌, ℕ, length, slice_get, IsSome, MatchResult};
ghost use Rattle.ps_base.specs.Limits.{most_text_bytes};
ghost use Rattle.ps_base.specs.declared.line.Line.{Line};
ghost use Rattle.ps_tree.specs.ps_symbols.Kinds.{operation_of, relating_of};
ghost use Rattle.ps_scan.specs.Tokens.{IsToken, newlines};
ghost use Rattle.ps_tree.specs.Phrase.{NameAt, named};
ghost use Rattle.ps_reader.specs.Faults.{end_line, unexpected};
ghost use Rattle.ps_reader.specs.Grammar.{Nested, Open, Rule, inside, name_at};
ghost use Rattle.ps_reader.specs.Reading.{kind_at};
ghost use Rattle.ps_reader.specs.inside.Parsing.{Accepts, AreSound, Does, Finds, Halts, Takes, TakesName, word_and_name};

mod leaves;
mod parameters;
mod types;

use ps_base::bytes::Bytes;
use ps_base::line::Line;
use ps_tree::fault::ParseFault;
use ps_tree::ps_symbols::kind::{Kind, Level, Operation, Relating, operation_of, relating_of};
use ps_tree::ps_symbols::symbol::Symbol;
use ps_tree::rough::Named;
use std::alloc::Global;

/// The symbols of a text, of which each method reads some: from a place on, which moves after
/// them. `room` is how many clauses and types may still stand inside one another.
#[derive(Drop)]
pub struct Reader<'a> {
    pub alloc: Global,
    pub text: &'a [u8],
    pub symbols: &'a [Symbol],
    /// How many tokens the text has.
    pub tokens: u32,
}

#[tactic(auto, using(crate::proofs::Steps::steps))]
impl<'a> Reader<'a> {
    fn symbol_at(&self, at: usize) -> Option<Symbol>
        ensures { result ≡ slice_get self.now.symbols.now at }
    {
        self.symbols.get(at).copied()
    }

    /// The kind of the symbol at the place; after the last there is the end of the text.
    pub fn kind_at(&self, at: usize) -> Kind
        ensures { result ≡ kind_at self.now.symbols.now at }
    {
        match self.symbol_at(at) {
            Some(symbol) => symbol.kind,
            None => Kind::EndOfText,
        }
    }

    /// The fault of a symbol that can't stand at the place.
    pub fn unexpected(&self, at: usize) -> ParseFault
        requires { AreSound self.now }
        ensures { result ≡ unexpected self.now.text.now self.now.tokens (slice_get self.now.symbols.now at) }
    {
        match self.symbol_at(at) {
            Some(symbol) => ParseFault::Unexpected {
                line: symbol.token.line,
                token: symbol.number,
            },
            None => ParseFault::Unexpected {
                line: end_line(self.text),
                token: self.tokens,
            },
        }
    }

    /// The fault of a clause or a type that the symbol at the place opens too deep.
    pub fn too_nested(&self, at: usize) -> ParseFault
        requires { AreSound self.now }
        ensures { (nested : Nested) → IsSome (inside self.now.text.now nested (kind_at self.now.symbols.now at)) → Halts self.now 0 (Open nested) at result }
    {
        match self.symbol_at(at) {
            Some(symbol) => ParseFault::TooNested {
                line: symbol.token.line,
            },
            None => self.unexpected(at),
        }
    }

    /// Takes the symbol at the place, which has to be of the kind.
    pub fn take(&self, at: &mut usize, kind: Kind) -> Result<Symbol, ParseFault>
        requires sound { AreSound self.now }
        ensures { Takes self.now kind at.old result at.new }
    {
        let Some(symbol) = self.symbol_at(*at) else {
            return Err(self.unexpected(*at));
        };
        if symbol.kind != kind {
            return Err(self.unexpected(*at));
        }
        *at += 1;
        Ok(symbol)
    }

    /// Takes the symbol at the place, if it is of the kind.
    pub fn accept(&self, at: &mut usize, kind: Kind) -> Option<Symbol>
        requires sound { AreSound self.now }
        ensures { Accepts self.now kind at.old result at.new }
    {
        let Some(symbol) = self.symbol_at(*at) else {
            return None;
        };
        if symbol.kind != kind {
            return None;
        }
        *at += 1;
        Some(symbol)
    }

    /// Takes the symbol at the place, if it is an operator of the level.
    pub fn operator(&self, at: &mut usize, level: Level) -> Option<(Operation, Symbol)>
        requires sound { AreSound self.now }
        ensures { Finds self.now (operation_of level) at.old result at.new }
    {
        let Some(symbol) = self.symbol_at(*at) else {
            return None;
        };
        let Some(operation) = operation_of(level, symbol.kind) else {
            return None;
        };
        *at += 1;
        Some((operation, symbol))
    }

    /// Takes the symbol at the place, if it compares, or asks for a class.
    pub fn relation(&self, at: &mut usize) -> Option<(Relating, Symbol)>
        requires sound { AreSound self.now }
        ensures { Finds self.now relating_of at.old result at.new }
    {
        let Some(symbol) = self.symbol_at(*at) else {
            return None;
        };
        let Some(relating) = relating_of(symbol.kind) else {
            return None;
        };
        *at += 1;
        Some((relating, symbol))
    }

    /// Takes the name at the place.
    pub fn name(&self, at: &mut usize) -> Result<Named, ParseFault>
        requires sound { AreSound self.now }
        ensures { TakesName self.now at.old result at.new }
    {
        let symbol = self.take(at, Kind::Name)?;
        self.spelled(symbol)
    }

    /// Takes a word, and the name after it: the line of the word, and the name.
    pub fn name_behind(&self, at: &mut usize, word: Kind) -> Result<(Line, Named), ParseFault>
        requires sound { AreSound self.now }
        ensures { (room : ℕ) (next : Line → NameAt → Rule) → Does self.now room (word_and_name self.now.text.now word next) at.old result (λ made. next made.0 (named made.1)) at.new }
    {
        let word = self.take(at, word)?;
        let name = self.name(at)?;
        Ok((word.token.line, name))
    }

    /// The name that a symbol is.
    fn spelled(&self, symbol: Symbol) -> Result<Named, ParseFault>
        requires { IsToken self.now.text.now symbol.token }
        ensures { MatchResult result (λ made. named made ≡ name_at self.now.text.now symbol) (λ fault. fault ≡ ParseFault.Memory) }
    {
        let name = Vec::from_slice(self.alloc, ps_scan::name_of(self.text, symbol.token))?;
        Ok(Named {
            name: Bytes::new(name),
            line: symbol.token.line,
        })
    }
}

/// The line of a text's last byte, where a newline belongs to the line that it ends.
fn end_line(text: &[u8]) -> Line
    requires { length text.now ≤ most_text_bytes }
    ensures { result ≡ end_line text.now }
{
    let before = text.split_at(text.len().saturating_sub(1)).0;
    Line(1 + newlines(before) as u32)
}

#[tactic(auto, unfolding(ps_scan::specs::Tokens::newlines))]
fn newlines(bytes: &[u8]) -> usize
    ensures count { result ≡ newlines bytes.now }
    ensures within { result ≤ length bytes.now }
{
    bytes.iter().filter(|byte| **byte == b'\n').count()
}
