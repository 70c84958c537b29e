ghost use Rattle.std.specs.Prelude.{◌≡◌, IfOk};
ghost use Rattle.ps_base.specs.TyView.{ty_view, ty_views};
ghost use Rattle.ps_base.specs.TyView as view;

use crate::list::List;
use std::alloc::{AllocError, Global};
use std::rc::Rc;

/// A type as a program writes it; `Void` is that of a procedure without a result
/// (`docs/language.md`). The parts of a type are shared, so a type is small, and a copy takes no memory.
#[cycle(types)]
pub enum Ty {
    Int,
    Bool,
    Str,
    Pntr,
    Void,
    /// A vector of elements of the type.
    Vector(Rc<Ty>),
    Proc(Rc<Signature>),
}

/// The types of a procedure's parameters, and the type of its result.
#[cycle(types)]
#[derive(Drop)]
pub struct Signature {
    pub parameters: List<Ty>,
    pub gives: Ty,
}

impl Ty {
    /// The same type once more. Takes no memory; the only fault is that there are too many copies
    /// already.
    pub fn copy(&self) -> Result<Ty, AllocError>
        ensures { IfOk result (λ made. ty_view made ≡ ty_view self.now) }
    {
        match self {
            Ty::Int => Ok(Ty::Int),
            Ty::Bool => Ok(Ty::Bool),
            Ty::Str => Ok(Ty::Str),
            Ty::Pntr => Ok(Ty::Pntr),
            Ty::Void => Ok(Ty::Void),
            Ty::Vector(element) => Ok(Ty::Vector(element.clone()?)),
            Ty::Proc(signature) => Ok(Ty::Proc(signature.clone()?)),
        }
    }
}

/// The type of vectors of these elements.
pub fn vector_of(alloc: Global, element: Ty) -> Result<Ty, AllocError>
    ensures { IfOk result (λ made. ty_view made ≡ view.Vector (ty_view element)) }
{
    Ok(Ty::Vector(Rc::new(alloc, element)?))
}

/// The type of procedures of these parameters and this result.
pub fn procedure_of(alloc: Global, parameters: Vec<Ty>, gives: Ty) -> Result<Ty, AllocError>
    ensures { IfOk result (λ made. ty_view made ≡ view.Proc (ty_views parameters.items) (ty_view gives)) }
{
    let parameters = List::new(parameters);
    let signature = Signature { parameters, gives };
    Ok(Ty::Proc(Rc::new(alloc, signature)?))
}

/// Lets go of a type. Vectors of vectors have no limit, so they are let go one after the other and
/// not inside one another.
impl Drop for Ty {
    #[cycle(types)]
    fn drop(mut self) {
        loop {
            match self {
                Ty::Int => return,
                Ty::Bool => return,
                Ty::Str => return,
                Ty::Pntr => return,
                Ty::Void => return,
                Ty::Proc(_) => return,
                Ty::Vector(element) => match Rc::into_inner(element) {
                    Some(element) => self = element,
                    None => return,
                },
            }
        }
    }
}
