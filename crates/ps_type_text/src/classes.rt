ghost use Rattle.std.specs.Prelude.{◌≡◌, ◌++◌, IfOk, OnOk};
ghost use Rattle.ps_type_text.specs.Texts.{class_text, field_text, fields_text};
ghost use Rattle.ps_type_text.specs.inside.Putting.{semicolon_at};
ghost use Rattle.ps_type_text.specs.Members.{field_of, fields_of};

use crate::types::put_type;
use ps_base::bytes::Bytes;
use ps_base::ty::Ty;
use std::alloc::{AllocError, Global};

/// A field of a class: its type and its name.
#[derive(Drop)]
pub struct Member {
    pub ty: Ty,
    pub name: Bytes,
}

// How many bytes are taken for a class's text at first.
const USUAL_LENGTH: usize = 32;

/// The canonical text of the class of this name and these fields (`docs/formats.md`).
pub fn class_text(alloc: Global, name: &[u8], fields: &[Member]) -> Result<Bytes, AllocError>
    ensures { IfOk result (λ made. made ≡ class_text name.now (fields_of fields.now)) }
{
    let mut made = Vec::with_capacity(alloc, USUAL_LENGTH)?;
    made.extend_from_slice(name)?;
    made.extend_from_slice(b"(")?;
    put_fields(fields, &mut made)?;
    made.extend_from_slice(b")")?;
    Ok(Bytes::new(made))
}

fn put_fields(fields: &[Member], into: &mut Vec<u8>) -> Result<(), AllocError>
    ensures { OnOk result (into.new.items ≡ into.old.items ++ fields_text (fields_of fields.now)) }
{
    for (place, field) in fields.iter().enumerate() {
        put_semicolon(place, into)?;
        put_field(field, into)?;
    }
    Ok(())
}

// A semicolon before each field but the first.
fn put_semicolon(place: usize, into: &mut Vec<u8>) -> Result<(), AllocError>
    ensures { OnOk result (into.new.items ≡ into.old.items ++ semicolon_at place) }
{
    if place == 0 {
        return Ok(());
    }
    into.extend_from_slice(b";")
}

fn put_field(field: &Member, into: &mut Vec<u8>) -> Result<(), AllocError>
    ensures { OnOk result (into.new.items ≡ into.old.items ++ field_text (field_of field.now)) }
{
    put_type(&field.ty, into)?;
    into.extend_from_slice(b" ")?;
    into.extend_from_slice(field.name.as_slice())
}
