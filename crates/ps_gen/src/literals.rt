ghost use Rattle.std.specs.Prelude.{IfOk, OnOk};
ghost use Rattle.ps_base.specs.CodeUnit.{unit_view};
ghost use Rattle.ps_program.specs.Node as node;
ghost use Rattle.ps_program.specs.NodeView.{body_of};
ghost use Rattle.ps_emitter.specs.Pieces.{state_of, Puts};
ghost use Rattle.ps_gen.specs.inside.Clauses.{made};
ghost use Rattle.ps_gen.specs.inside.Steps.{IsUnit};

use crate::begun::begin;
use crate::tree::tree;
use ps_base::code_unit::CodeUnit;
use ps_base::instr::Instr;
use ps_emitter::choices::kind_of;
use ps_emitter::emitter::Emitter;
use ps_emitter::frame::frame;
use ps_program::body::Body;
use std::alloc::{AllocError, Global};

/// A procedure: its unit is a constant.
#[cycle(tree)]
pub(crate) fn procedure(emitter: &mut Emitter, body: &Body) -> Result<(), AllocError>
    ensures { OnOk result (Puts (made (node.Proc (body_of body.now))) (state_of emitter.old) (state_of emitter.new)) }
{
    let unit = unit(emitter.alloc, body)?;
    emitter.name_unit(unit)
}

/// The unit of a body.
#[cycle(tree)]
pub(crate) fn unit(alloc: Global, body: &Body) -> Result<CodeUnit, AllocError>
    ensures { IfOk result (λ made. IsUnit (body_of body.now) (unit_view made)) }
{
    let mut emitter = Emitter::new(alloc);
    let counts = begin(&mut emitter, body)?;
    tree(&mut emitter, &body.tree)?;
    let k = kind_of(&body.gives);
    emitter.put(Instr::Return { k })?;
    let frame = frame(counts, emitter.nums, emitter.refs)?;
    Ok(emitter.into_unit(frame))
}
