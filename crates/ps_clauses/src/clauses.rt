//! Clauses, by the token that opens each.

ghost use Rattle.ps_tree.specs.ps_symbols.declared.symbol.Symbol.{Symbol};
ghost use Rattle.ps_tree.specs.Phrase.{Phrases, MaybePhrase, phrase_of, none, more};
ghost use Rattle.ps_tree.specs.PhraseLists.{phrases_in, maybe_in};
ghost use Rattle.ps_reader.specs.Grammar.{Made, Part, Rule, a_clause, Go, Clause, opened, condition, procedure, filling, expression};
ghost use Rattle.ps_reader.specs.inside.Parsing.{AreSound, Does, ReadsClause};
ghost use Rattle.ps_clauses.specs.inside.Clauses.{IsList, IsOptional, behind};

use crate::cases::choosing;
use crate::items::literal;
use crate::loops::{counting, repeating, repetition};
use crate::operators::chain;
use crate::writing::writing;
use ps_reader::reader::Reader;
use ps_tree::build::{assign, if_do, if_else, vector_of};
use ps_tree::fault::ParseFault;
use ps_tree::ps_symbols::kind::{Kind, Level, Opening, opening_of};
use ps_tree::ps_symbols::symbol::Symbol;
use ps_tree::rough::Rough;

#[cycle(parsing)]
pub(crate) fn clause(reader: &Reader, at: &mut usize, room: u32) -> Result<Rough, ParseFault>
    requires sound { AreSound reader.now }
    ensures { ReadsClause reader.now room Clause at.old result at.new }
{
    let Some(opening) = opening_of(reader.kind_at(*at)) else {
        return Err(reader.unexpected(*at));
    };
    if room == 0 {
        return Err(reader.too_nested(*at));
    }
    opened(reader, at, room - 1, opening)
}

#[cycle(parsing)]
fn opened(reader: &Reader, at: &mut usize, room: u32, opening: Opening) -> Result<Rough, ParseFault>
    requires sound { AreSound reader.now }
    ensures { ReadsClause reader.now room (opened reader.now.text.now opening) at.old result at.new }
{
    match opening {
        Opening::Condition => condition(reader, at, room),
        Opening::Repetition => repetition(reader, at, room),
        Opening::Repeating => repeating(reader, at, room),
        Opening::Counting => counting(reader, at, room),
        Opening::Choosing => choosing(reader, at, room),
        Opening::Writing => writing(reader, at, room),
        Opening::Aborting => reader.aborting(at, room),
        Opening::Procedure => procedure(reader, at, room),
        Opening::Filling => filling(reader, at, room),
        Opening::Expression => expression(reader, at, room),
    }
}

/// A symbol of the kind, and the clause after it.
#[cycle(parsing)]
pub(crate) fn after(
    reader: &Reader,
    at: &mut usize,
    room: u32,
    kind: Kind,
) -> Result<(Symbol, Rough), ParseFault>
    requires sound { AreSound reader.now }
    ensures { (next : Symbol → Made → Rule) → Does reader.now room (behind kind next) at.old result (λ made. next made.0 (a_clause (phrase_of made.1))) at.new }
{
    let symbol = reader.take(at, kind)?;
    let e = clause(reader, at, room)?;
    Ok((symbol, e))
}

/// The clause after a symbol of the kind, if one stands at the place.
#[cycle(parsing)]
pub(crate) fn optional(
    reader: &Reader,
    at: &mut usize,
    room: u32,
    kind: Kind,
) -> Result<Option<Rough>, ParseFault>
    requires sound { AreSound reader.now }
    ensures { (part : Part) (next : MaybePhrase → Rule) → IsOptional reader.now.text.now kind part next → Does reader.now room (Go part) at.old result (λ made. next (maybe_in made)) at.new }
{
    let Some(_) = reader.accept(at, kind) else {
        return Ok(None);
    };
    let e = clause(reader, at, room)?;
    Ok(Some(e))
}

/// The clauses with commas between them of which this is the first.
#[cycle(parsing)]
pub(crate) fn more_clauses(
    reader: &Reader,
    at: &mut usize,
    room: u32,
    first: Rough,
) -> Result<Vec<Rough>, ParseFault>
    requires sound { AreSound reader.now }
    ensures { (part : Phrases → Part) (rest : Phrases → Rule) → IsList reader.now.text.now part rest → Does reader.now room (Go (part (more (phrase_of first) none))) at.old result (λ made. rest (phrases_in made.items)) at.new }
{
    let mut clauses = Vec::with_capacity(reader.alloc, 1)?;
    clauses.push(first)?;
    while let Some(_) = reader.accept(at, Kind::Comma) {
        let e = clause(reader, at, room)?;
        clauses.push(e)?;
    }
    Ok(clauses)
}

#[cycle(parsing)]
fn condition(reader: &Reader, at: &mut usize, room: u32) -> Result<Rough, ParseFault>
    requires sound { AreSound reader.now }
    ensures { ReadsClause reader.now room condition at.old result at.new }
{
    let (word, c) = after(reader, at, room, Kind::If)?;
    match reader.kind_at(*at) {
        Kind::Do => {
            let (_, a) = after(reader, at, room, Kind::Do)?;
            if_do(reader.alloc, c, a, word.token.line)
        }
        Kind::Then => {
            let (_, a) = after(reader, at, room, Kind::Then)?;
            let (_, b) = after(reader, at, room, Kind::Else)?;
            if_else(reader.alloc, c, a, b, word.token.line)
        }
        _ => Err(reader.unexpected(*at)),
    }
}

#[cycle(parsing)]
fn procedure(reader: &Reader, at: &mut usize, room: u32) -> Result<Rough, ParseFault>
    requires sound { AreSound reader.now }
    ensures { ReadsClause reader.now room procedure at.old result at.new }
{
    let word = reader.take(at, Kind::Proc)?;
    literal(reader, at, room, word.token.line)
}

#[cycle(parsing)]
fn filling(reader: &Reader, at: &mut usize, room: u32) -> Result<Rough, ParseFault>
    requires sound { AreSound reader.now }
    ensures { ReadsClause reader.now room filling at.old result at.new }
{
    let (word, l) = after(reader, at, room, Kind::Vector)?;
    let (_, u) = after(reader, at, room, Kind::DoubleColon)?;
    let (_, e) = after(reader, at, room, Kind::Of)?;
    vector_of(reader.alloc, l, u, e, word.token.line)
}

/// An expression, and what is assigned to it, if anything.
#[cycle(parsing)]
fn expression(reader: &Reader, at: &mut usize, room: u32) -> Result<Rough, ParseFault>
    requires sound { AreSound reader.now }
    ensures { ReadsClause reader.now room expression at.old result at.new }
{
    let left = chain(reader, at, room, Level::Disjunction)?;
    let Some(mark) = reader.accept(at, Kind::Becomes) else {
        return Ok(left);
    };
    let e = clause(reader, at, room)?;
    assign(reader.alloc, left, e, mark.token.line)
}
