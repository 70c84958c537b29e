ghost use Rattle.std.specs.Prelude.{◌≡◌, ◌+◌, IfOk};

use crate::emitter::sum;
use ps_base::code_unit::Frame;
use std::alloc::AllocError;

/// How many locals of each stack the parameters take.
#[derive(Clone, Copy)]
pub struct Counts {
    pub nums: u32,
    pub refs: u32,
}

/// The locals of a body: those of its parameters, and those that its clause takes.
pub fn frame(counts: Counts, nums: u32, refs: u32) -> Result<Frame, AllocError>
    ensures { IfOk result (λ made. made ≡ record { nums = counts.nums + nums; refs = counts.refs + refs; num_params = counts.nums; ref_params = counts.refs }) }
{
    Ok(Frame {
        nums: count(sum(counts.nums, nums)?)?,
        refs: count(sum(counts.refs, refs)?)?,
        num_params: count(counts.nums)?,
        ref_params: count(counts.refs)?,
    })
}

fn count(locals: u32) -> Result<u16, AllocError>
    ensures { IfOk result (λ made. made ≡ locals) }
{
    match u16::try_from(locals) {
        Ok(made) => Ok(made),
        Err(_) => Err(AllocError),
    }
}
