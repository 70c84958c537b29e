ghost use Rattle.std.specs.Prelude.{◌≡◌, [], IfOk};
ghost use Rattle.ps_base.specs.List.{items_of};
ghost use Rattle.ps_base.specs.TyView.{ty_view};
ghost use Rattle.ps_program.specs.NodeView.{params_of};
ghost use Rattle.ps_emitter.specs.Pieces.{state_of};
ghost use Rattle.ps_gen.specs.inside.Steps.{IsBegun};

use crate::kept::keep_all;
use crate::scopes::{enter, text_in};
use ps_base::code_unit::Constant;
use ps_emitter::emitter::Emitter;
use ps_emitter::frame::Counts;
use ps_emitter::signature::signature_text;
use ps_program::body::Body;
use std::alloc::AllocError;

/// Begins the code of a body, where there is none yet: the type of the procedure, the scope, and the parameters that it keeps.
/// It answers how many locals the parameters take.
pub(crate) fn begin(emitter: &mut Emitter, body: &Body) -> Result<Counts, AllocError>
    ensures { state_of emitter.old ≡ record { code = []; constants = []; nums = 0; refs = 0 } → IfOk result (λ counts. IsBegun (params_of (items_of body.now.params)) (ty_view body.now.gives) body.now.scope counts (state_of emitter.new)) }
{
    let params = body.params.as_slice();
    let of = signature_text(emitter.alloc, params, &body.gives)?;
    emitter.add(Constant::Text(of))?;
    enter(emitter, text_in(&body.scope))?;
    keep_all(emitter, params)
}
