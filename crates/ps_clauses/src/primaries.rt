//! Primaries, and what they are applied to.

ghost use Rattle.ps_tree.specs.Phrase.{phrase_of};
ghost use Rattle.ps_reader.specs.Grammar.{Made, Go, Rule, a_clause, Application, Arguments, Primary, block, bound_of, elements};
ghost use Rattle.ps_reader.specs.inside.Parsing.{AreSound, Does, ReadsClause};
ghost use Rattle.ps_clauses.specs.inside.Clauses.{in_brackets};

use crate::clauses::{after, clause, more_clauses};
use crate::items::items;
use ps_base::line::Line;
use ps_reader::reader::Reader;
use ps_tree::build::{apply, bound_of, elems, part_of};
use ps_tree::fault::ParseFault;
use ps_tree::ps_symbols::kind::{Kind, Start, start_of};
use ps_tree::rough::Rough;

/// A primary, and what it is applied to.
#[cycle(parsing)]
pub(crate) fn application(reader: &Reader, at: &mut usize, room: u32) -> Result<Rough, ParseFault>
    requires sound { AreSound reader.now }
    ensures { ReadsClause reader.now room (Go Application) at.old result at.new }
{
    let mut made = primary(reader, at, room)?;
    while let Some(mark) = reader.accept(at, Kind::OpenRound) {
        made = arguments(reader, at, room, mark.token.line, made)?;
    }
    Ok(made)
}

/// What stands after a bracket on the line that follows `f`.
#[cycle(parsing)]
fn arguments(
    reader: &Reader,
    at: &mut usize,
    room: u32,
    line: Line,
    f: Rough,
) -> Result<Rough, ParseFault>
    requires sound { AreSound reader.now }
    ensures { ReadsClause reader.now room (Go (Arguments line (phrase_of f))) at.old result at.new }
{
    if let Some(_) = reader.accept(at, Kind::CloseRound) {
        return apply(reader.alloc, f, Vec::new(reader.alloc), line);
    }
    let first = clause(reader, at, room)?;
    if let Some(_) = reader.accept(at, Kind::Bar) {
        let n = clause(reader, at, room)?;
        reader.take(at, Kind::CloseRound)?;
        return part_of(reader.alloc, f, first, n, line);
    }
    let all = more_clauses(reader, at, room, first)?;
    reader.take(at, Kind::CloseRound)?;
    apply(reader.alloc, f, all, line)
}

#[cycle(parsing)]
fn primary(reader: &Reader, at: &mut usize, room: u32) -> Result<Rough, ParseFault>
    requires sound { AreSound reader.now }
    ensures { ReadsClause reader.now room (Go Primary) at.old result at.new }
{
    let kind = reader.kind_at(*at);
    let Some(start) = start_of(kind) else {
        return Err(reader.unexpected(*at));
    };
    match start {
        Start::Name => reader.name_leaf(at, room),
        Start::Int => reader.int_leaf(at, room),
        Start::Text => reader.text_leaf(at, room),
        Start::Flag(value) => reader.flag_leaf(at, room, kind, value),
        Start::Nil => reader.nil_leaf(at, room),
        Start::Round => bracketed(reader, at, room),
        Start::Block(last) => block(reader, at, room, kind, last),
        Start::Bound { upper } => bound_of_vector(reader, at, room, kind, upper),
        Start::Elements => elements(reader, at, room),
    }
}

#[cycle(parsing)]
fn bracketed(reader: &Reader, at: &mut usize, room: u32) -> Result<Rough, ParseFault>
    requires sound { AreSound reader.now }
    ensures { (next : Made → Rule) → Does reader.now room (in_brackets next) at.old result (λ made. next (a_clause (phrase_of made))) at.new }
{
    let (_, e) = after(reader, at, room, Kind::OpenRound)?;
    reader.take(at, Kind::CloseRound)?;
    Ok(e)
}

#[cycle(parsing)]
fn block(
    reader: &Reader,
    at: &mut usize,
    room: u32,
    first: Kind,
    last: Kind,
) -> Result<Rough, ParseFault>
    requires sound { AreSound reader.now }
    ensures { ReadsClause reader.now room (block first last) at.old result at.new }
{
    let mark = reader.take(at, first)?;
    let all = items(reader, at, room, mark.token.line)?;
    reader.take(at, last)?;
    Ok(all)
}

#[cycle(parsing)]
fn bound_of_vector(
    reader: &Reader,
    at: &mut usize,
    room: u32,
    first: Kind,
    upper: bool,
) -> Result<Rough, ParseFault>
    requires sound { AreSound reader.now }
    ensures { ReadsClause reader.now room (bound_of first upper) at.old result at.new }
{
    let word = reader.take(at, first)?;
    let e = bracketed(reader, at, room)?;
    bound_of(reader.alloc, upper, e, word.token.line)
}

#[cycle(parsing)]
fn elements(reader: &Reader, at: &mut usize, room: u32) -> Result<Rough, ParseFault>
    requires sound { AreSound reader.now }
    ensures { ReadsClause reader.now room elements at.old result at.new }
{
    let (mark, l) = after(reader, at, room, Kind::At)?;
    let ty = reader.element_type(at, room)?;
    let (_, first) = after(reader, at, room, Kind::OpenSquare)?;
    let all = more_clauses(reader, at, room, first)?;
    reader.take(at, Kind::CloseSquare)?;
    elems(reader.alloc, l, ty, all, mark.token.line)
}
