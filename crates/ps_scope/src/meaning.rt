ghost use Rattle.std.specs.Prelude.{◌≡◌, IfOk};
ghost use Rattle.ps_scope.specs.Views.{meaning_of, local_of, procedure_of};

use ps_base::bytes::Bytes;
use ps_base::list::List;
use ps_base::ty::{Signature, Ty};
use std::alloc::AllocError;
use std::rc::Rc;

/// What a name means (`docs/language.md`).
#[derive(Drop)]
pub enum Meaning {
    Local(Local),
    Class(Rc<Class>),
    Library(Procedure),
}

/// A constant, a variable, a parameter or a control: its number among all of the program, its type, and whether it can be
/// assigned to.
#[derive(Drop)]
pub struct Local {
    pub number: u32,
    pub ty: Ty,
    pub variable: bool,
}

/// A class: its canonical text, and the types of its fields.
#[derive(Drop)]
pub struct Class {
    pub text: Rc<Bytes>,
    pub fields: List<Ty>,
}

/// A procedure of the library.
#[derive(Drop)]
pub enum Procedure {
    /// One with a number, of these parameters and this result.
    Plain { code: u8, signature: Rc<Signature> },
    /// A scan of a table whose keys are strings, or ints.
    Scan { text: bool },
}

impl Meaning {
    /// The same meaning once more. Takes no memory; the only fault is that there are too many copies already.
    pub fn copy(&self) -> Result<Meaning, AllocError>
        ensures { IfOk result (λ made. meaning_of made ≡ meaning_of self.now) }
    {
        match self {
            Meaning::Local(local) => Ok(Meaning::Local(local.copy()?)),
            Meaning::Class(class) => Ok(Meaning::Class(class.clone()?)),
            Meaning::Library(procedure) => Ok(Meaning::Library(procedure.copy()?)),
        }
    }
}

impl Local {
    fn copy(&self) -> Result<Local, AllocError>
        ensures { IfOk result (λ made. local_of made ≡ local_of self.now) }
    {
        Ok(Local {
            number: self.number,
            ty: self.ty.copy()?,
            variable: self.variable,
        })
    }
}

impl Procedure {
    fn copy(&self) -> Result<Procedure, AllocError>
        ensures { IfOk result (λ made. procedure_of made ≡ procedure_of self.now) }
    {
        match self {
            Procedure::Plain { code, signature } => Ok(Procedure::Plain {
                code: *code,
                signature: signature.clone()?,
            }),
            Procedure::Scan { text } => Ok(Procedure::Scan { text: *text }),
        }
    }
}
