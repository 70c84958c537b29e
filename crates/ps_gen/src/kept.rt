ghost use Rattle.std.specs.Prelude.{◌≡◌, true, false, IfOk, OnOk};
ghost use Rattle.ps_program.specs.NodeView.{param_of, params_of};
ghost use Rattle.ps_emitter.specs.ps_typing.Locals.{taken_by_params};
ghost use Rattle.ps_emitter.specs.Pieces.{state_of, Puts};
ghost use Rattle.ps_gen.specs.inside.Clauses.{keeping, keep_one};

use ps_base::instr::Instr;
use ps_emitter::choices::is_number;
use ps_emitter::emitter::{Emitter, sum};
use ps_emitter::frame::Counts;
use ps_emitter::names::one_on;
use ps_program::body::Param;
use ps_program::place::Place;
use std::alloc::AllocError;

/// Keeps the parameters that a scope keeps, and answers how many there are.
pub(crate) fn keep_all(emitter: &mut Emitter, params: &[Param]) -> Result<Counts, AllocError>
    ensures put { IfOk result (λ counts. Puts (keeping (params_of params.now) 0 0) (state_of emitter.old) (state_of emitter.new)) }
    ensures nums { IfOk result (λ counts. counts.nums ≡ taken_by_params true (params_of params.now)) }
    ensures refs { IfOk result (λ counts. counts.refs ≡ taken_by_params false (params_of params.now)) }
{
    let mut nums = 0;
    let mut refs = 0;
    for param in params {
        keep(emitter, param, nums, refs)?;
        nums = sum(nums, one_on(true, &param.ty))?;
        refs = sum(refs, one_on(false, &param.ty))?;
    }
    Ok(Counts { nums, refs })
}

fn keep(emitter: &mut Emitter, param: &Param, nums: u32, refs: u32) -> Result<(), AllocError>
    ensures { OnOk result (Puts (keep_one (param_of param.now) nums refs) (state_of emitter.old) (state_of emitter.new)) }
{
    match param.place {
        Place::Plain { .. } => Ok(()),
        Place::Kept { up: u, slot: i } => {
            if is_number(&param.ty) {
                emitter.put(Instr::GetM { s: nums })?;
                emitter.put(Instr::KeepM { u, i })
            } else {
                emitter.put(Instr::GetP { s: refs })?;
                emitter.put(Instr::KeepP { u, i })
            }
        }
    }
}
