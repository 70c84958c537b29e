ghost use Rattle.std.specs.Prelude.{◌≡◌, IfOk};
ghost use Rattle.ps_base.specs.CodeUnit.{unit_view};
ghost use Rattle.ps_program.specs.NodeView.{body_of};
ghost use Rattle.std.specs.List.{AllByRecursion};
ghost use Rattle.ps_emitter.specs.ps_typing.Program.{bodies};
ghost use Rattle.ps_gen.specs.Units.{unit_of, HasUnit};

use crate::literals::unit;
use ps_base::code_unit::CodeUnit;
use ps_program::body::Program;
use std::alloc::{AllocError, Global};

/// The code of a program: the unit of its body, in which the units of its literals are constants. The error is want of memory;
/// also a program that has no unit gets it, since a slot, an offset or a number of locals doesn't fit its field: no checked
/// program of a text does. What was made until then is let go.
pub fn generate(alloc: Global, program: &Program) -> Result<CodeUnit, AllocError>
    ensures unit { IfOk result (λ unit. unit_view unit ≡ unit_of (body_of program.now.body)) }
    ensures fits { IfOk result (λ unit. AllByRecursion HasUnit (bodies (body_of program.now.body))) }
{
    unit(alloc, &program.body)
}
