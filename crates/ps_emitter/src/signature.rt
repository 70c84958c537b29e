ghost use Rattle.std.specs.Prelude.{◌≡◌, IfOk};
ghost use Rattle.ps_base.specs.TyView.{Proc, ty_view, ty_views};
ghost use Rattle.ps_program.specs.NodeView.{params_of};
ghost use Rattle.ps_type_text.specs.Texts.{type_text as type_text_of};
ghost use Rattle.ps_typing.specs.WellTyped.{types_of_params};

use ps_base::bytes::Bytes;
use ps_base::ty::{Ty, procedure_of};
use ps_program::body::Param;
use ps_type_text::type_text;
use std::alloc::{AllocError, Global};

/// The text of the type of a procedure.
pub fn signature_text(alloc: Global, params: &[Param], gives: &Ty) -> Result<Bytes, AllocError>
    ensures { IfOk result (λ made. made ≡ type_text_of (Proc (types_of_params (params_of params.now)) (ty_view gives.now))) }
{
    let types = types_of(alloc, params)?;
    let gives = gives.copy()?;
    let ty = procedure_of(alloc, types, gives)?;
    type_text(alloc, &ty)
}

fn types_of(alloc: Global, params: &[Param]) -> Result<Vec<Ty>, AllocError>
    ensures { IfOk result (λ made. ty_views made.items ≡ types_of_params (params_of params.now)) }
{
    let mut made = Vec::new(alloc);
    for param in params {
        made.push(param.ty.copy()?)?;
    }
    Ok(made)
}
