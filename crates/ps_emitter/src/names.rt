ghost use Rattle.std.specs.Prelude.{◌≡◌, OnOk, IfOk};
ghost use Rattle.ps_base.specs.CodeUnit.{text, literal, unit_view};
ghost use Rattle.ps_base.specs.TyView.{ty_view};
ghost use Rattle.ps_type_text.specs.Texts.{type_text as type_text_of};
ghost use Rattle.ps_emitter.specs.Choices.{set as set_of};
ghost use Rattle.ps_emitter.specs.Pieces.{state_of, Puts, ◌▷◌, one};
ghost use Rattle.ps_emitter.specs.Instructions.{naming, named_by, taking};
ghost use Rattle.ps_typing.specs.Locals.{taken_on, one_on as one_of};

use crate::choices::{is_number, set};
use crate::emitter::Emitter;
use crate::naming::Naming;
use ps_base::bytes::Bytes;
use ps_base::code_unit::{CodeUnit, Constant};
use ps_base::ty::Ty;
use ps_program::place::Place;
use ps_type_text::type_text;
use std::alloc::{AllocError, Global};

impl Emitter {
    /// Puts an instruction, and the text that it names.
    pub fn name(&mut self, it: Naming, bytes: &[u8]) -> Result<(), AllocError>
        ensures { OnOk result (Puts (naming (named_by it.entry) (text bytes.now)) (state_of self.old) (state_of self.new)) }
    {
        let c = self.named()?;
        let copy = copied(self.alloc, bytes)?;
        self.put(it.of(c))?;
        self.add(Constant::Text(copy))?;
        Ok(())
    }

    /// Puts an instruction, and the text of the type that it names.
    pub fn name_type(&mut self, it: Naming, ty: &Ty) -> Result<(), AllocError>
        ensures { OnOk result (Puts (naming (named_by it.entry) (text (type_text_of (ty_view ty.now)))) (state_of self.old) (state_of self.new)) }
    {
        let bytes = type_text(self.alloc, ty)?;
        self.name(it, bytes.as_slice())
    }

    /// Puts the instruction that makes a procedure, and the unit that it names.
    pub fn name_unit(&mut self, unit: CodeUnit) -> Result<(), AllocError>
        ensures { OnOk result (Puts (naming (named_by Naming.Closure) (literal (unit_view unit))) (state_of self.old) (state_of self.new)) }
    {
        let it = Constant::of_unit(self.alloc, unit)?;
        let c = self.named()?;
        self.put(Naming::Closure.of(c))?;
        self.add(it)?;
        Ok(())
    }

    /// Takes the local of a name that is declared at a place.
    pub fn take_place(&mut self, place: Place, ty: &Ty) -> Result<(), AllocError>
        ensures { OnOk result (Puts (taking place (ty_view ty.now)) (state_of self.old) (state_of self.new)) }
    {
        self.take(local_on(true, place, ty), local_on(false, place, ty))
    }

    /// Gives a declared name its value, and takes its local.
    pub fn declare(&mut self, place: Place, ty: &Ty) -> Result<(), AllocError>
        ensures { OnOk result (Puts (one (set_of place (ty_view ty.now)) ▷ taking place (ty_view ty.now)) (state_of self.old) (state_of self.new)) }
    {
        self.put(set(place, ty))?;
        self.take_place(place, ty)?;
        Ok(())
    }
}

// How many locals of a stack a name of the type takes that is declared at a place.
fn local_on(stack: bool, place: Place, ty: &Ty) -> u32
    ensures { result ≡ taken_on stack (ty_view ty.now) place }
{
    match place {
        Place::Plain { .. } => one_on(stack, ty),
        Place::Kept { .. } => 0,
    }
}

/// How many locals of a stack a value of the type takes.
pub fn one_on(stack: bool, ty: &Ty) -> u32
    ensures { result ≡ one_of stack (ty_view ty.now) }
{
    if is_number(ty) == stack { 1 } else { 0 }
}

// The same bytes once more.
fn copied(alloc: Global, bytes: &[u8]) -> Result<Bytes, AllocError>
    ensures { IfOk result (λ made. made ≡ bytes.now) }
{
    let mut copy = Vec::new(alloc);
    copy.extend_from_slice(bytes)?;
    Ok(Bytes::new(copy))
}
