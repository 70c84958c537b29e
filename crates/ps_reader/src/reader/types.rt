//! Types.

ghost use Rattle.std.specs.Prelude.{true};
ghost use Rattle.ps_base.specs.TyView.{TyView, ty_view, ty_views};
ghost use Rattle.ps_reader.specs.Grammar.{Go, Rule, Type_, skip, Give, a_type, all_types, Result, ParameterTypes, parameter_types, procedure_type, typed_as};
ghost use Rattle.ps_reader.specs.inside.Parsing.{AreSound, Does, ReadsType, element_type};

use super::Reader;
use ps_base::ty::Ty;
use ps_tree::build::{procedure_type, vector_type};
use ps_tree::fault::ParseFault;
use ps_tree::ps_symbols::kind::{Kind, TypeStart, begins_type, type_start_of};

#[tactic(auto, using(crate::proofs::Steps::steps))]
impl<'a> Reader<'a> {
    /// The type of the elements of a vector, after `of`.
    pub fn element_type(&self, at: &mut usize, room: u32) -> Result<Ty, ParseFault>
        requires sound { AreSound self.now }
        ensures { (next : TyView → Rule) → Does self.now room (element_type next) at.old result (λ made. next (ty_view made)) at.new }
    {
        self.take(at, Kind::Of)?;
        self.ty(at, room)
    }

    /// The type that begins at the place.
    #[cycle(types)]
    pub fn ty(&self, at: &mut usize, room: u32) -> Result<Ty, ParseFault>
        requires sound { AreSound self.now }
        ensures { ReadsType self.now room Type_ at.old result at.new }
    {
        let Some(start) = type_start_of(self.kind_at(*at)) else {
            return Err(self.unexpected(*at));
        };
        if room == 0 {
            return Err(self.too_nested(*at));
        }
        self.typed_as(at, room - 1, start)
    }

    #[cycle(types)]
    fn typed_as(&self, at: &mut usize, room: u32, start: TypeStart) -> Result<Ty, ParseFault>
        requires sound { AreSound self.now }
        ensures { ReadsType self.now room (typed_as start) at.old result at.new }
    {
        match start {
            TypeStart::Int => self.plain_type(at, room, Kind::IntType, Ty::Int),
            TypeStart::Bool => self.plain_type(at, room, Kind::BoolType, Ty::Bool),
            TypeStart::Str => self.plain_type(at, room, Kind::StringType, Ty::Str),
            TypeStart::Pntr => self.plain_type(at, room, Kind::PntrType, Ty::Pntr),
            TypeStart::Vector => self.vector_type(at, room),
            TypeStart::Proc => self.procedure_type(at, room),
        }
    }

    fn plain_type(&self, at: &mut usize, room: u32, word: Kind, ty: Ty) -> Result<Ty, ParseFault>
        requires sound { AreSound self.now }
        ensures { ReadsType self.now room (skip word (Give (a_type (ty_view ty)))) at.old result at.new }
    {
        self.take(at, word)?;
        Ok(ty)
    }

    #[cycle(types)]
    fn vector_type(&self, at: &mut usize, room: u32) -> Result<Ty, ParseFault>
        requires sound { AreSound self.now }
        ensures { ReadsType self.now room (typed_as TypeStart.Vector) at.old result at.new }
    {
        self.take(at, Kind::Times)?;
        let element = self.ty(at, room)?;
        vector_type(self.alloc, element)
    }

    #[cycle(types)]
    fn procedure_type(&self, at: &mut usize, room: u32) -> Result<Ty, ParseFault>
        requires sound { AreSound self.now }
        ensures { ReadsType self.now room procedure_type at.old result at.new }
    {
        self.take(at, Kind::Proc)?;
        self.take(at, Kind::OpenRound)?;
        let parameters = self.parameter_types(at, room)?;
        let gives = self.result_type(at, room)?;
        self.take(at, Kind::CloseRound)?;
        procedure_type(self.alloc, parameters, gives)
    }

    /// The types of the parameters of a procedure type, if it has any.
    #[cycle(types)]
    fn parameter_types(&self, at: &mut usize, room: u32) -> Result<Vec<Ty>, ParseFault>
        requires sound { AreSound self.now }
        ensures { Does self.now room (Go ParameterTypes) at.old result (λ made. Give (all_types (ty_views made.items))) at.new }
    {
        if begins_type(self.kind_at(*at)) {
            return self.types(at, room);
        }
        Ok(Vec::new(self.alloc))
    }

    #[cycle(types)]
    fn types(&self, at: &mut usize, room: u32) -> Result<Vec<Ty>, ParseFault>
        requires sound { AreSound self.now }
        ensures { Does self.now room (parameter_types true) at.old result (λ made. Give (all_types (ty_views made.items))) at.new }
    {
        let mut types = Vec::new(self.alloc);
        let first = self.ty(at, room)?;
        types.push(first)?;
        while let Kind::Comma = self.kind_at(*at) {
            self.take(at, Kind::Comma)?;
            let ty = self.ty(at, room)?;
            types.push(ty)?;
        }
        Ok(types)
    }

    /// The type after `->`, or that of a procedure without a result.
    #[cycle(types)]
    pub fn result_type(&self, at: &mut usize, room: u32) -> Result<Ty, ParseFault>
        requires sound { AreSound self.now }
        ensures { ReadsType self.now room (Go Result) at.old result at.new }
    {
        match self.kind_at(*at) {
            Kind::Arrow => {
                self.take(at, Kind::Arrow)?;
                self.ty(at, room)
            }
            _ => Ok(Ty::Void),
        }
    }
}
