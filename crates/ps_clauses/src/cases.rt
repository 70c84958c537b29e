//! The `case`, with its arms.

ghost use Rattle.ps_reader.specs.Grammar.{choosing};
ghost use Rattle.ps_reader.specs.inside.Parsing.{AreSound, ReadsClause};

use crate::clauses::{after, clause, more_clauses};
use ps_reader::reader::Reader;
use ps_tree::build::{arm_of, case_of};
use ps_tree::fault::ParseFault;
use ps_tree::ps_symbols::kind::Kind;
use ps_tree::rough::Rough;

/// The `case`: its arms, as long as no `default` stands in their place, and the clause of that.
#[cycle(parsing)]
pub(crate) fn choosing(reader: &Reader, at: &mut usize, room: u32) -> Result<Rough, ParseFault>
    requires sound { AreSound reader.now }
    ensures { ReadsClause reader.now room choosing at.old result at.new }
{
    let (word, e) = after(reader, at, room, Kind::Case)?;
    reader.take(at, Kind::Of)?;
    let mut arms = Vec::new(reader.alloc);
    loop {
        if let Some(_) = reader.accept(at, Kind::Default) {
            let (_, d) = after(reader, at, room, Kind::Colon)?;
            return case_of(reader.alloc, e, arms, d, word.token.line);
        }
        let first = clause(reader, at, room)?;
        let labels = more_clauses(reader, at, room, first)?;
        let (_, a) = after(reader, at, room, Kind::Colon)?;
        reader.take(at, Kind::Semicolon)?;
        arms.push(arm_of(labels, a))?;
    }
}
