ghost use Rattle.std.specs.Prelude.{◌≡◌, map, reverse, take, codes, IfOk};
ghost use Rattle.ps_base.specs.TyView.{ty_view, ty_views};
ghost use Rattle.ps_base.specs.TyView as view;
ghost use Rattle.ps_typing.specs.Library.{procedures, error_class, three};
ghost use Rattle.ps_typing.specs.Names.{class, library};
ghost use Rattle.ps_typing.specs.Names as names;
ghost use Rattle.ps_scope.specs.Views.{field_of};
ghost use Rattle.ps_scope.specs.Content.{declared_of};
ghost use Rattle.ps_scope.specs.inside.Declarations.{declared_routine, error_fields, types_in, simple_view};

use crate::declaration::{Declaration, bytes_of};
use crate::field::Field;
use crate::meaning::{Class, Meaning, Procedure};
use ps_base::bytes::Bytes;
use ps_base::list::List;
use ps_base::ty::{Signature, Ty};
use std::alloc::{AllocError, Global};
use std::rc::Rc;

/// A type without parts.
#[derive(Clone, Copy)]
pub enum Simple {
    Int,
    Bool,
    Str,
    Pntr,
    Void,
}

/// A procedure of the library with a number.
#[derive(Clone, Copy)]
pub struct Routine {
    pub name: &'static str,
    pub code: u8,
    pub parameters: &'static [Simple],
    pub gives: Simple,
}

// The rows of a table of routines: the name, the code, the parameters' types and the result's.
macro_rules! routines {
    ($($name:literal $code:literal ($($parameter:ident)*) $gives:ident)*) => {
        [$(Routine {
            name: $name,
            code: $code,
            parameters: &[$(Simple::$parameter),*],
            gives: Simple::$gives,
        }),*]
    };
}

// The last is found first.
pub const ROUTINES: [Routine; 13] = routines! {
    "iformat" 12 (Int) Str
    "length" 11 (Str) Int
    "eof" 10 () Bool
    "read.a.line" 9 () Str
    "cardinality" 8 (Pntr) Int
    "i.lookup" 7 (Int Pntr) Pntr
    "i.enter" 6 (Int Pntr Pntr) Void
    "s.lookup" 5 (Str Pntr) Pntr
    "s.enter" 4 (Str Pntr Pntr) Void
    "table" 3 () Pntr
    "commit" 2 () Pntr
    "open.database" 1 (Str Str Str) Pntr
    "create.database" 0 (Str Str) Pntr
};

/// The names of the library, from the outermost to the innermost.
pub(crate) fn procedures(alloc: Global, text: Rc<Bytes>) -> Result<Vec<Declaration>, AllocError>
    requires { text.value ≡ error_class }
    ensures { IfOk result (λ made. map declared_of (reverse made.items) ≡ procedures) }
{
    let mut made = Vec::new(alloc);
    made.push(error_record(alloc, text)?)?;
    made.push(scan(alloc, "i.scan", false)?)?;
    made.push(scan(alloc, "s.scan", true)?)?;
    let rows = routines();
    for routine in rows {
        made.push(routine.declaration(alloc)?)?;
    }
    Ok(made)
}

fn routines() -> &'static [Routine; 13]
    ensures { map declared_routine result.now ≡ reverse (take 13 procedures) }
{
    &ROUTINES
}

/// The text of the class `error.record`.
pub(crate) fn error_text(alloc: Global) -> Result<Rc<Bytes>, AllocError>
    ensures { IfOk result (λ made. made.value ≡ error_class) }
{
    let text = bytes_of(
        alloc,
        b"error.record(string error.context;string error.fault;string error.explain)",
    )?;
    Ok(Rc::new(alloc, text)?)
}

/// The fields of `error.record`, from the outermost to the innermost.
pub(crate) fn error_fields(alloc: Global, text: &Rc<Bytes>) -> Result<Vec<Field>, AllocError>
    requires { text.now.value ≡ error_class }
    ensures { IfOk result (λ made. map field_of (reverse made.items) ≡ error_fields) }
{
    let mut made = Vec::new(alloc);
    made.push(error_field(alloc, text, 2, b"error.explain")?)?;
    made.push(error_field(alloc, text, 1, b"error.fault")?)?;
    made.push(error_field(alloc, text, 0, b"error.context")?)?;
    Ok(made)
}

fn error_field(
    alloc: Global,
    text: &Rc<Bytes>,
    index: u32,
    name: &[u8],
) -> Result<Field, AllocError>
    ensures { IfOk result (λ made. field_of made ≡ record { name = name.now; class = text.now.value; index = index; ty = view.Str }) }
{
    Ok(Field {
        name: bytes_of(alloc, name)?,
        class: text.clone()?,
        index,
        ty: Ty::Str,
    })
}

fn error_record(alloc: Global, text: Rc<Bytes>) -> Result<Declaration, AllocError>
    ensures { IfOk result (λ made. declared_of made ≡ record { name = codes "error.record"; meaning = class text.value (three view.Str view.Str view.Str) }) }
{
    let mut fields = Vec::new(alloc);
    fields.push(Ty::Str)?;
    fields.push(Ty::Str)?;
    fields.push(Ty::Str)?;
    let fields = List::new(fields);
    let class = Rc::new(alloc, Class { text, fields })?;
    Ok(Declaration {
        name: bytes_of(alloc, b"error.record")?,
        meaning: Meaning::Class(class),
    })
}

fn scan(alloc: Global, name: &str, text: bool) -> Result<Declaration, AllocError>
    ensures { IfOk result (λ made. declared_of made ≡ record { name = name.now; meaning = library (names.scan text) }) }
{
    Ok(Declaration {
        name: bytes_of(alloc, name.as_bytes())?,
        meaning: Meaning::Library(Procedure::Scan { text }),
    })
}

impl Routine {
    fn declaration(&self, alloc: Global) -> Result<Declaration, AllocError>
        ensures { IfOk result (λ made. declared_of made ≡ declared_routine self.now) }
    {
        let parameters = List::new(types(alloc, self.parameters)?);
        let gives = self.gives.ty();
        let signature = Rc::new(alloc, Signature { parameters, gives })?;
        let code = self.code;
        Ok(Declaration {
            name: bytes_of(alloc, self.name.as_bytes())?,
            meaning: Meaning::Library(Procedure::Plain { code, signature }),
        })
    }
}

fn types(alloc: Global, simple: &[Simple]) -> Result<Vec<Ty>, AllocError>
    ensures { IfOk result (λ made. ty_views made.items ≡ types_in simple.now) }
{
    let mut made = Vec::new(alloc);
    for one in simple {
        made.push(one.ty())?;
    }
    Ok(made)
}

impl Simple {
    fn ty(self) -> Ty
        ensures { ty_view result ≡ simple_view self }
    {
        match self {
            Simple::Int => Ty::Int,
            Simple::Bool => Ty::Bool,
            Simple::Str => Ty::Str,
            Simple::Pntr => Ty::Pntr,
            Simple::Void => Ty::Void,
        }
    }
}
