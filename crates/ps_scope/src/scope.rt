ghost use Rattle.std.specs.Prelude.{◌≡◌, IfOk};
ghost use Rattle.std.specs.Borrow.{Bor};

use crate::declaration::{Declaration, bytes_of};
use crate::field::Field;
use crate::library;
use crate::meaning::{Class, Local, Meaning};
use ps_base::ty::Ty;
use ps_log::Log;
use ps_type_text::Member;
use std::alloc::{AllocError, Global};
use std::marker::Model;
use std::rc::Rc;

/// For how many names there is room before more is taken: for those of the library, and of a small program.
const ROOM: usize = 64;

/// The names and fields in scope at a place of a program, and the locals declared so far.
#[derive(Drop)]
pub struct Scope {
    // From the outermost to the innermost, and how many of them stand in blocks around.
    names: Log<Declaration>,
    names_around: usize,
    fields: Log<Field>,
    fields_around: usize,
    locals: Vec<Member>,
}

/// What `Scope::leave` wants to know of the blocks around the one that it ends.
#[derive(Clone, Copy)]
pub struct Block {
    pub names_around: usize,
    pub fields_around: usize,
}

impl Model for Scope {
    ghost use Rattle.std.specs.Prelude.{◌≤◌, length};
    ghost use Rattle.std.specs.Coded.{codes};
    ghost use Rattle.ps_base.specs.contracts.ty.Ty as ty;
    ghost use Rattle.ps_scope.specs.Content.{Content};

    ghost Value = { Content };

    ghost coded = { Prim.hlevel (codes, ty.the_row.coded) };

    ghost view = { λ s. record { names = s.names; names_around = s.names_around; fields = s.fields; fields_around = s.fields_around; locals = s.locals.items } };

    ghost invariant = { λ s. (s.names_around ≤ length s.names) × (s.fields_around ≤ length s.fields) };
}

impl Scope {
    ghost use Rattle.std.specs.Prelude.{ℕ, ◌++◌, ◌≤◌, length, option_map, IfOk, OnOk};
    ghost use Rattle.ps_base.specs.TyView.{ty_view};
    ghost use Rattle.ps_type_text.specs.Members.{fields_of};
    ghost use Rattle.ps_typing.specs.Names.{Names, meant, field_meant, is_declared, is_field_declared, declare, declare_local, declare_field, inside, behind};
    ghost use Rattle.ps_typing.specs.Library.{library_names};
    ghost use Rattle.ps_scope.specs.Content.{names_of};
    ghost use Rattle.ps_scope.specs.Views.{meaning_of, class_of, field_of};

    /// The names of the library.
    pub fn new(alloc: Global) -> Result<Scope, AllocError>
        ensures { IfOk result (λ made. names_of made ≡ library_names) }
    {
        let text = library::error_text(alloc)?;
        let fields = Log::from_entries(alloc, library::error_fields(alloc, &text)?, ROOM)?;
        let names = Log::from_entries(alloc, library::procedures(alloc, text)?, ROOM)?;
        let names_around = names.len();
        let fields_around = fields.len();
        Ok(Scope {
            names,
            names_around,
            fields,
            fields_around,
            locals: Vec::with_capacity(alloc, ROOM)?,
        })
    }

    /// What a name means, or `None` where it isn't in scope.
    pub fn find(&self, name: &[u8]) -> Option<&Meaning>
        ensures { option_map (λ (m : Bor _). meaning_of m.now) result ≡ meant (names_of self.now) name.now }
    {
        match self.names.find(name) {
            Some(declaration) => Some(&declaration.meaning),
            None => None,
        }
    }

    /// The field of this name, or `None` where none is in scope.
    pub fn find_field(&self, name: &[u8]) -> Option<&Field>
        ensures { option_map (λ (f : Bor _). field_of f.now) result ≡ field_meant (names_of self.now) name.now }
    {
        self.fields.find(name)
    }

    /// Whether the block itself declares a name.
    pub fn declares(&self, name: &[u8]) -> bool
        ensures { result ≡ is_declared (names_of self.now) name.now }
    {
        self.names.has_behind(self.names_around, name)
    }

    /// Whether the block itself declares a field of this name.
    pub fn declares_field(&self, name: &[u8]) -> bool
        ensures { result ≡ is_field_declared (names_of self.now) name.now }
    {
        self.fields.has_behind(self.fields_around, name)
    }

    /// Declares a constant or a variable in the block, and answers its number. A refusal leaves the names as they were.
    pub fn declare_local(
        &mut self,
        alloc: Global,
        name: &[u8],
        ty: &Ty,
        variable: bool,
    ) -> Result<u32, AllocError>
        ensures number { IfOk result (λ number. number ≡ length (names_of self.old).all) }
        ensures names { OnOk result (names_of self.new ≡ declare_local (names_of self.old) name.now (ty_view ty.now) variable) }
    {
        let number = number_of(self.locals.len())?;
        let member = Member {
            ty: ty.copy()?,
            name: bytes_of(alloc, name)?,
        };
        let ty = ty.copy()?;
        let local = Local {
            number,
            ty,
            variable,
        };
        let name = bytes_of(alloc, name)?;
        let meaning = Meaning::Local(local);
        self.locals.reserve(1)?;
        self.names.push(Declaration { name, meaning })?;
        self.locals.push(member)?;
        Ok(number)
    }

    /// Declares a class in the block.
    pub fn declare_class(
        &mut self,
        alloc: Global,
        name: &[u8],
        class: Rc<Class>,
    ) -> Result<(), AllocError>
        ensures { OnOk result (names_of self.new ≡ declare (names_of self.old) name.now (class_of class.value)) }
    {
        let name = bytes_of(alloc, name)?;
        let meaning = Meaning::Class(class);
        self.names.push(Declaration { name, meaning })?;
        Ok(())
    }

    /// Declares a field in the block.
    pub fn declare_field(&mut self, field: Field) -> Result<(), AllocError>
        ensures { OnOk result (names_of self.new ≡ declare_field (names_of self.old) (field_of field)) }
    {
        self.fields.push(field)?;
        Ok(())
    }

    /// Begins a block, and answers what `leave` wants at its end.
    pub fn enter(&mut self) -> Block
        ensures names { names_of self.new ≡ inside (names_of self.old) }
        ensures names_around { result.names_around ≡ length (names_of self.old).around }
        ensures fields_around { result.fields_around ≡ length (names_of self.old).fields_around }
    {
        let block = Block {
            names_around: self.names_around,
            fields_around: self.fields_around,
        };
        self.names_around = self.names.len();
        self.fields_around = self.fields.len();
        block
    }

    /// Ends the block that began where `enter` answered this.
    pub fn leave(&mut self, block: Block)
        requires names { block.names_around ≤ length (names_of self.old).around }
        requires fields { block.fields_around ≤ length (names_of self.old).fields_around }
        ensures { (before : Names) → (names_of self.old).around ≡ before.here ++ before.around → (names_of self.old).fields_around ≡ before.fields_here ++ before.fields_around → block.names_around ≡ length before.around → block.fields_around ≡ length before.fields_around → names_of self.new ≡ behind before (names_of self.old) }
    {
        self.names.truncate(self.names_around);
        self.fields.truncate(self.fields_around);
        self.names_around = block.names_around;
        self.fields_around = block.fields_around;
    }

    /// The names and types of all locals that were declared, in the order of their numbers.
    pub fn into_locals(self) -> Vec<Member>
        ensures { fields_of result.items ≡ (names_of self).all }
    {
        let Scope {
            names: _,
            names_around: _,
            fields: _,
            fields_around: _,
            locals,
        } = self;
        locals
    }
}

// The number of a local after so many.
fn number_of(count: usize) -> Result<u32, AllocError>
    ensures { IfOk result (λ number. number ≡ count) }
{
    match u32::try_from(count) {
        Ok(number) => Ok(number),
        Err(_) => Err(AllocError),
    }
}
