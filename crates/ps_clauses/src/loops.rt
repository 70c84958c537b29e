//! The loops: `while`, `repeat` and `for`.

ghost use Rattle.ps_reader.specs.Grammar.{loop, repeating, counting};
ghost use Rattle.ps_reader.specs.inside.Parsing.{AreSound, ReadsClause};

use crate::clauses::{after, optional};
use ps_reader::reader::Reader;
use ps_tree::build::{for_of, repeat_of, while_of};
use ps_tree::fault::ParseFault;
use ps_tree::ps_symbols::kind::Kind;
use ps_tree::rough::Rough;

#[cycle(parsing)]
pub(crate) fn repetition(reader: &Reader, at: &mut usize, room: u32) -> Result<Rough, ParseFault>
    requires sound { AreSound reader.now }
    ensures { ReadsClause reader.now room loop at.old result at.new }
{
    let (word, c) = after(reader, at, room, Kind::While)?;
    let (_, a) = after(reader, at, room, Kind::Do)?;
    while_of(reader.alloc, c, a, word.token.line)
}

#[cycle(parsing)]
pub(crate) fn repeating(reader: &Reader, at: &mut usize, room: u32) -> Result<Rough, ParseFault>
    requires sound { AreSound reader.now }
    ensures { ReadsClause reader.now room repeating at.old result at.new }
{
    let (word, a) = after(reader, at, room, Kind::Repeat)?;
    reader.accept(at, Kind::Semicolon);
    let (_, c) = after(reader, at, room, Kind::While)?;
    let b = optional(reader, at, room, Kind::Do)?;
    repeat_of(reader.alloc, a, c, b, word.token.line)
}

#[cycle(parsing)]
pub(crate) fn counting(reader: &Reader, at: &mut usize, room: u32) -> Result<Rough, ParseFault>
    requires sound { AreSound reader.now }
    ensures { ReadsClause reader.now room (counting reader.now.text.now) at.old result at.new }
{
    let (line, name) = reader.name_behind(at, Kind::For)?;
    let (_, a) = after(reader, at, room, Kind::Equals)?;
    let (_, b) = after(reader, at, room, Kind::To)?;
    let c = optional(reader, at, room, Kind::By)?;
    let (_, s) = after(reader, at, room, Kind::Do)?;
    for_of(reader.alloc, name, a, b, c, s, line)
}
