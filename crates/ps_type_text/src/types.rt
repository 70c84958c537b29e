ghost use Rattle.std.specs.Prelude.{◌≡◌, ◌++◌, IfOk, OnOk};
ghost use Rattle.ps_base.specs.TyView.{ty_view, ty_views};
ghost use Rattle.ps_type_text.specs.Texts.{type_text, result_text, parameters_text};
ghost use Rattle.ps_type_text.specs.inside.Putting.{comma_at};
ghost use Rattle.ps_type_text.specs.inside.Procedures.{procedure_view};

use ps_base::bytes::Bytes;
use ps_base::ty::{Signature, Ty};
use std::alloc::{AllocError, Global};

/// The canonical text of a type (`docs/formats.md`). The recursion is as deep as procedures' types
/// stand inside one another.
pub fn type_text(alloc: Global, ty: &Ty) -> Result<Bytes, AllocError>
    ensures { IfOk result (λ made. made ≡ type_text (ty_view ty.now)) }
{
    let mut made = Vec::new(alloc);
    put_type(ty, &mut made)?;
    Ok(Bytes::new(made))
}

/// Puts the text of a type after some bytes. Vectors of vectors have no limit, so their elements
/// are reached by a loop.
#[cycle(putting)]
pub(crate) fn put_type(ty: &Ty, into: &mut Vec<u8>) -> Result<(), AllocError>
    ensures { OnOk result (into.new.items ≡ into.old.items ++ type_text (ty_view ty.now)) }
{
    let mut rest = ty;
    loop {
        match rest {
            Ty::Int => return into.extend_from_slice(b"int"),
            Ty::Bool => return into.extend_from_slice(b"bool"),
            Ty::Str => return into.extend_from_slice(b"string"),
            Ty::Pntr => return into.extend_from_slice(b"pntr"),
            Ty::Void => return into.extend_from_slice(b"void"),
            Ty::Vector(element) => {
                into.extend_from_slice(b"*")?;
                rest = element;
            }
            Ty::Proc(signature) => return put_procedure(signature, into),
        }
    }
}

#[cycle(putting)]
fn put_procedure(signature: &Signature, into: &mut Vec<u8>) -> Result<(), AllocError>
    ensures { OnOk result (into.new.items ≡ into.old.items ++ type_text (procedure_view signature.now)) }
{
    into.extend_from_slice(b"proc(")?;
    put_parameters(signature.parameters.as_slice(), into)?;
    put_result(&signature.gives, into)?;
    into.extend_from_slice(b")")
}

#[cycle(putting)]
fn put_result(gives: &Ty, into: &mut Vec<u8>) -> Result<(), AllocError>
    ensures { OnOk result (into.new.items ≡ into.old.items ++ result_text (ty_view gives.now) (type_text (ty_view gives.now))) }
{
    match gives {
        Ty::Void => Ok(()),
        _ => {
            into.extend_from_slice(b"->")?;
            put_type(gives, into)
        }
    }
}

#[cycle(putting)]
fn put_parameters(types: &[Ty], into: &mut Vec<u8>) -> Result<(), AllocError>
    ensures { OnOk result (into.new.items ≡ into.old.items ++ parameters_text (ty_views types.now)) }
{
    for (place, ty) in types.iter().enumerate() {
        put_comma(place, into)?;
        put_type(ty, into)?;
    }
    Ok(())
}

// A comma before each parameter but the first.
fn put_comma(place: usize, into: &mut Vec<u8>) -> Result<(), AllocError>
    ensures { OnOk result (into.new.items ≡ into.old.items ++ comma_at place) }
{
    if place == 0 {
        return Ok(());
    }
    into.extend_from_slice(b",")
}
