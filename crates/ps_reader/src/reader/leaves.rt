//! What is one token: a name, an int, a string, a flag, `nil` and `abort`.

ghost use Rattle.ps_reader.specs.Grammar.{name_leaf, int_leaf, text_leaf, flag_leaf, nil_leaf, aborting};
ghost use Rattle.ps_reader.specs.inside.Parsing.{AreSound, ReadsClause};

use super::Reader;
use ps_base::bytes::Bytes;
use ps_scan::{int_of, spell};
use ps_tree::build::{form_at, name_of};
use ps_tree::fault::ParseFault;
use ps_tree::ps_symbols::kind::Kind;
use ps_tree::rough::{Rough, RoughForm};

#[tactic(auto, using(crate::proofs::Steps::steps))]
impl<'a> Reader<'a> {
    /// A name.
    pub fn name_leaf(&self, at: &mut usize, room: u32) -> Result<Rough, ParseFault>
        requires sound { AreSound self.now }
        ensures { ReadsClause self.now room (name_leaf self.now.text.now) at.old result at.new }
    {
        let name = self.name(at)?;
        name_of(self.alloc, name)
    }

    /// An int.
    pub fn int_leaf(&self, at: &mut usize, room: u32) -> Result<Rough, ParseFault>
        requires sound { AreSound self.now }
        ensures { ReadsClause self.now room (int_leaf self.now.text.now) at.old result at.new }
    {
        let symbol = self.take(at, Kind::Int)?;
        form_at(
            self.alloc,
            RoughForm::Int(int_of(self.text, symbol.token)),
            symbol.token.line,
        )
    }

    /// A string.
    pub fn text_leaf(&self, at: &mut usize, room: u32) -> Result<Rough, ParseFault>
        requires sound { AreSound self.now }
        ensures { ReadsClause self.now room (text_leaf self.now.text.now) at.old result at.new }
    {
        let string = self.take(at, Kind::Text)?;
        let bytes = spell(self.alloc, self.text, string.token)?;
        form_at(
            self.alloc,
            RoughForm::Text(Bytes::new(bytes)),
            string.token.line,
        )
    }

    /// `true` or `false`, which the kind says.
    pub fn flag_leaf(
        &self,
        at: &mut usize,
        room: u32,
        kind: Kind,
        value: bool,
    ) -> Result<Rough, ParseFault>
        requires sound { AreSound self.now }
        ensures { ReadsClause self.now room (flag_leaf kind value) at.old result at.new }
    {
        let word = self.take(at, kind)?;
        form_at(self.alloc, RoughForm::Flag(value), word.token.line)
    }

    /// `nil`.
    pub fn nil_leaf(&self, at: &mut usize, room: u32) -> Result<Rough, ParseFault>
        requires sound { AreSound self.now }
        ensures { ReadsClause self.now room nil_leaf at.old result at.new }
    {
        let word = self.take(at, Kind::Nil)?;
        form_at(self.alloc, RoughForm::Nil, word.token.line)
    }

    /// `abort`.
    pub fn aborting(&self, at: &mut usize, room: u32) -> Result<Rough, ParseFault>
        requires sound { AreSound self.now }
        ensures { ReadsClause self.now room aborting at.old result at.new }
    {
        let word = self.take(at, Kind::Abort)?;
        form_at(self.alloc, RoughForm::Abort, word.token.line)
    }
}
