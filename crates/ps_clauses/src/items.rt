//! Items: the declarations, and sequences of items.

ghost use Rattle.std.specs.Prelude.{◌≡◌};
ghost use Rattle.ps_tree.specs.Phrase.{none};
ghost use Rattle.ps_tree.specs.PhraseLists.{phrases_in};
ghost use Rattle.ps_reader.specs.Grammar.{Go, Item, Items, MoreItems, Literal, let_item};
ghost use Rattle.ps_reader.specs.inside.Parsing.{AreSound, Does, ReadsClause};
ghost use Rattle.ps_clauses.specs.inside.Clauses.{makes_variable};

use crate::clauses::{after, clause};
use ps_base::line::Line;
use ps_reader::reader::Reader;
use ps_tree::build::{let_of, proc_of, sequence};
use ps_tree::fault::ParseFault;
use ps_tree::ps_symbols::kind::{Kind, begins_item};
use ps_tree::rough::Rough;

/// The items of a sequence that begins on the line.
#[cycle(parsing)]
pub fn items(reader: &Reader, at: &mut usize, room: u32, line: Line) -> Result<Rough, ParseFault>
    requires sound { AreSound reader.now }
    ensures { ReadsClause reader.now room (Go (Items line none)) at.old result at.new }
{
    let mut items = Vec::new(reader.alloc);
    loop {
        optional_item(reader, at, room, line, &mut items)?;
        let Some(_) = reader.accept(at, Kind::Semicolon) else {
            return sequence(reader.alloc, items, line);
        };
    }
}

/// Adds the item that stands at the place, if there is one.
#[cycle(parsing)]
fn optional_item(
    reader: &Reader,
    at: &mut usize,
    room: u32,
    line: Line,
    items: &mut Vec<Rough>,
) -> Result<(), ParseFault>
    requires sound { AreSound reader.now }
    ensures { Does reader.now room (Go (Items line (phrases_in items.old.items))) at.old result (λ added. Go (MoreItems line (phrases_in items.new.items))) at.new }
{
    if begins_item(reader.kind_at(*at)) {
        let one = item(reader, at, room)?;
        items.push(one)?;
    }
    Ok(())
}

#[cycle(parsing)]
fn item(reader: &Reader, at: &mut usize, room: u32) -> Result<Rough, ParseFault>
    requires sound { AreSound reader.now }
    ensures { ReadsClause reader.now room (Go Item) at.old result at.new }
{
    match reader.kind_at(*at) {
        Kind::Let => let_item(reader, at, room),
        Kind::Structure => reader.structure_item(at, room),
        Kind::Procedure => {
            let (line, name) = reader.name_behind(at, Kind::Procedure)?;
            let e = literal(reader, at, room, line)?;
            let_of(reader.alloc, name, false, e, line)
        }
        _ => clause(reader, at, room),
    }
}

#[cycle(parsing)]
fn let_item(reader: &Reader, at: &mut usize, room: u32) -> Result<Rough, ParseFault>
    requires sound { AreSound reader.now }
    ensures { ReadsClause reader.now room (let_item reader.now.text.now) at.old result at.new }
{
    let (line, name) = reader.name_behind(at, Kind::Let)?;
    let mark = reader.kind_at(*at);
    let Some(variable) = makes_variable(mark) else {
        return Err(reader.unexpected(*at));
    };
    let (_, e) = after(reader, at, room, mark)?;
    let_of(reader.alloc, name, variable, e, line)
}

/// Whether the mark after the name of a `let` makes a variable of it, if it is one of the two.
fn makes_variable(mark: Kind) -> Option<bool>
    ensures { result ≡ makes_variable mark }
{
    match mark {
        Kind::Equals => Some(false),
        Kind::Becomes => Some(true),
        _ => None,
    }
}

/// A procedure after its `proc` on the line, or after its name.
#[cycle(parsing)]
pub(crate) fn literal(
    reader: &Reader,
    at: &mut usize,
    room: u32,
    line: Line,
) -> Result<Rough, ParseFault>
    requires sound { AreSound reader.now }
    ensures { ReadsClause reader.now room (Go (Literal line)) at.old result at.new }
{
    let (params, gives) = reader.signature(at, room)?;
    let (_, s) = after(reader, at, room, Kind::Semicolon)?;
    proc_of(reader.alloc, params, gives, s, line)
}
