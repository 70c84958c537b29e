//! Operators between operands, and signs before them.

ghost use Rattle.ps_reader.specs.Grammar.{Go, Chain, Relative, Compared, Factor, operand};
ghost use Rattle.ps_reader.specs.inside.Parsing.{AreSound, ReadsClause};

use crate::primaries::application;
use ps_reader::reader::Reader;
use ps_tree::build::{compare, is_of, join, negation, not, plus};
use ps_tree::fault::ParseFault;
use ps_tree::ps_symbols::kind::{Kind, Level, Relating};
use ps_tree::rough::Rough;

/// Operands with the operators of a level between them.
#[cycle(parsing)]
pub(crate) fn chain(
    reader: &Reader,
    at: &mut usize,
    room: u32,
    level: Level,
) -> Result<Rough, ParseFault>
    requires sound { AreSound reader.now }
    ensures { ReadsClause reader.now room (Go (Chain level)) at.old result at.new }
{
    let mut left = operand(reader, at, room, level)?;
    while let Some((operation, mark)) = reader.operator(at, level) {
        let right = operand(reader, at, room, level)?;
        left = join(reader.alloc, operation, left, right, mark.token.line)?;
    }
    Ok(left)
}

#[cycle(parsing)]
fn operand(reader: &Reader, at: &mut usize, room: u32, level: Level) -> Result<Rough, ParseFault>
    requires sound { AreSound reader.now }
    ensures { ReadsClause reader.now room (Go (operand level)) at.old result at.new }
{
    match level {
        Level::Disjunction => chain(reader, at, room, Level::Conjunction),
        Level::Conjunction => relative(reader, at, room),
        Level::Sum => chain(reader, at, room, Level::Product),
        Level::Product => factor(reader, at, room),
    }
}

/// Sums with a comparison between them, and `~` before both.
#[cycle(parsing)]
fn relative(reader: &Reader, at: &mut usize, room: u32) -> Result<Rough, ParseFault>
    requires sound { AreSound reader.now }
    ensures { ReadsClause reader.now room (Go Relative) at.old result at.new }
{
    let Some(mark) = reader.accept(at, Kind::Tilde) else {
        return compared(reader, at, room);
    };
    let e = compared(reader, at, room)?;
    not(reader.alloc, e, mark.token.line)
}

/// A sum, and what it is compared with, or the class that it is asked for, if anything.
#[cycle(parsing)]
fn compared(reader: &Reader, at: &mut usize, room: u32) -> Result<Rough, ParseFault>
    requires sound { AreSound reader.now }
    ensures { ReadsClause reader.now room (Go Compared) at.old result at.new }
{
    let left = chain(reader, at, room, Level::Sum)?;
    let Some((relating, sign)) = reader.relation(at) else {
        return Ok(left);
    };
    let line = sign.token.line;
    match relating {
        Relating::Compares(op) => {
            let right = chain(reader, at, room, Level::Sum)?;
            compare(reader.alloc, op, left, right, line)
        }
        Relating::IsOf { negated } => {
            let class = reader.name(at)?;
            is_of(reader.alloc, left, class, negated, line)
        }
    }
}

#[cycle(parsing)]
fn factor(reader: &Reader, at: &mut usize, room: u32) -> Result<Rough, ParseFault>
    requires sound { AreSound reader.now }
    ensures { ReadsClause reader.now room (Go Factor) at.old result at.new }
{
    if let Some(mark) = reader.accept(at, Kind::Plus) {
        let e = application(reader, at, room)?;
        return plus(reader.alloc, e, mark.token.line);
    }
    if let Some(mark) = reader.accept(at, Kind::Minus) {
        let e = application(reader, at, room)?;
        return negation(reader.alloc, e, mark.token.line);
    }
    application(reader, at, room)
}
