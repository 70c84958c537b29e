//! The parameters of a procedure, and the fields of a structure.

ghost use Rattle.std.specs.Prelude.{List, ◌++◌, [], ℕ};
ghost use Rattle.ps_base.specs.TyView.{TyView, ty_view};
ghost use Rattle.ps_tree.specs.Phrase.{GroupAt, groups_in, names_in};
ghost use Rattle.ps_reader.specs.Grammar.{Go, Rule, all_groups, structure_item, Parameters, Groups, MoreGroups, Give};
ghost use Rattle.ps_reader.specs.inside.Parsing.{AreSound, Does, ReadsClause, next_groups, signature};

use super::Reader;
use ps_base::ty::Ty;
use ps_tree::build::{group_of, structure_of};
use ps_tree::fault::ParseFault;
use ps_tree::ps_symbols::kind::{Kind, begins_type};
use ps_tree::rough::{Group, Named, Rough};

#[tactic(auto, using(crate::proofs::Steps::steps))]
impl<'a> Reader<'a> {
    /// A class that is declared, with its fields.
    pub fn structure_item(&self, at: &mut usize, room: u32) -> Result<Rough, ParseFault>
        requires sound { AreSound self.now }
        ensures { ReadsClause self.now room (structure_item self.now.text.now) at.old result at.new }
    {
        let (line, name) = self.name_behind(at, Kind::Structure)?;
        self.take(at, Kind::OpenRound)?;
        let fields = self.parameters(at, room)?;
        self.take(at, Kind::CloseRound)?;
        structure_of(self.alloc, name, fields, line)
    }

    /// The parameters and the result of a procedure, in their brackets.
    pub fn signature(&self, at: &mut usize, room: u32) -> Result<(Vec<Group>, Ty), ParseFault>
        requires sound { AreSound self.now }
        ensures { (next : List GroupAt → TyView → Rule) → Does self.now room (signature next) at.old result (λ made. next (groups_in made.0.items) (ty_view made.1)) at.new }
    {
        self.take(at, Kind::OpenRound)?;
        let params = self.parameters(at, room)?;
        let gives = self.result_type(at, room)?;
        self.take(at, Kind::CloseRound)?;
        Ok((params, gives))
    }

    /// The parameters of a procedure, or the fields of a structure, if it has any.
    fn parameters(&self, at: &mut usize, room: u32) -> Result<Vec<Group>, ParseFault>
        requires sound { AreSound self.now }
        ensures { Does self.now room (Go Parameters) at.old result (λ made. Give (all_groups (groups_in made.items))) at.new }
    {
        if begins_type(self.kind_at(*at)) {
            return self.groups(at, room);
        }
        Ok(Vec::new(self.alloc))
    }

    fn groups(&self, at: &mut usize, room: u32) -> Result<Vec<Group>, ParseFault>
        requires sound { AreSound self.now }
        ensures { Does self.now room (Go (Groups [])) at.old result (λ made. Give (all_groups (groups_in made.items))) at.new }
    {
        let mut groups = Vec::with_capacity(self.alloc, 1)?;
        loop {
            let ty = self.ty(at, room)?;
            let first = self.name(at)?;
            let mut more = Vec::new(self.alloc);
            let goes_on = self.names(at, &mut more)?;
            groups.push(group_of(ty, first, more))?;
            if !goes_on {
                return Ok(groups);
            }
        }
    }

    /// Adds the further names of a group, and takes what stands before the next group; whether
    /// there is one.
    fn names(&self, at: &mut usize, names: &mut Vec<Named>) -> Result<bool, ParseFault>
        requires sound { AreSound self.now }
        ensures { (room : ℕ) (ty : TyView) (before : List GroupAt) → Does self.now room (Go (MoreGroups ty (before ++ names_in ty names.old.items))) at.old result (λ goes_on. next_groups (before ++ names_in ty names.new.items) goes_on) at.new }
    {
        loop {
            match self.kind_at(*at) {
                Kind::Comma => {
                    self.take(at, Kind::Comma)?;
                    let Kind::Name = self.kind_at(*at) else {
                        return Ok(true);
                    };
                    let name = self.name(at)?;
                    names.push(name)?;
                }
                Kind::Semicolon => {
                    self.take(at, Kind::Semicolon)?;
                    return Ok(true);
                }
                _ => return Ok(false),
            }
        }
    }
}
