//! The `write`, with its items.

ghost use Rattle.ps_reader.specs.Grammar.{Go, Written, writing};
ghost use Rattle.ps_reader.specs.inside.Parsing.{AreSound, ReadsClause};
ghost use Rattle.ps_clauses.specs.inside.Clauses.{ReadsItem};

use crate::clauses::clause;
use ps_reader::reader::Reader;
use ps_tree::build::{item_of, write_of};
use ps_tree::fault::ParseFault;
use ps_tree::ps_symbols::kind::Kind;
use ps_tree::rough::{Rough, RoughItem};

#[cycle(parsing)]
pub(crate) fn writing(reader: &Reader, at: &mut usize, room: u32) -> Result<Rough, ParseFault>
    requires sound { AreSound reader.now }
    ensures { ReadsClause reader.now room writing at.old result at.new }
{
    let word = reader.take(at, Kind::Write)?;
    let mut items = Vec::with_capacity(reader.alloc, 1)?;
    loop {
        let item = written(reader, at, room)?;
        items.push(item)?;
        let Some(_) = reader.accept(at, Kind::Comma) else {
            return write_of(reader.alloc, items, word.token.line);
        };
    }
}

/// An item of a `write`, with its width, if it has one.
#[cycle(parsing)]
fn written(reader: &Reader, at: &mut usize, room: u32) -> Result<RoughItem, ParseFault>
    requires sound { AreSound reader.now }
    ensures { ReadsItem reader.now room (Go Written) at.old result at.new }
{
    let e = clause(reader, at, room)?;
    let Some(mark) = reader.accept(at, Kind::Colon) else {
        let line = e.line;
        return Ok(item_of(e, None, line));
    };
    let w = clause(reader, at, room)?;
    Ok(item_of(e, Some(w), mark.token.line))
}
