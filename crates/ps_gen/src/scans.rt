ghost use Rattle.std.specs.Prelude.{OnOk};
ghost use Rattle.ps_program.specs.Node as node;
ghost use Rattle.ps_program.specs.NodeView.{node_of};
ghost use Rattle.ps_emitter.specs.Pieces.{state_of, Puts};
ghost use Rattle.ps_gen.specs.inside.Clauses.{made};

use crate::operands::one_then;
use ps_base::instr::Instr;
use ps_base::line::Line;
use ps_emitter::emitter::{Emitter, sum};
use ps_program::form::Tree;
use std::alloc::AllocError;

/// A scan of a table by a procedure.
#[cycle(tree)]
pub(crate) fn scan(
    emitter: &mut Emitter,
    text: bool,
    a: &Tree,
    f: &Tree,
    q: u32,
    s: u32,
    line: Line,
) -> Result<(), AllocError>
    ensures { OnOk result (Puts (made (node.Scan text (node_of a.now) (node_of f.now) q s line)) (state_of emitter.old) (state_of emitter.new)) }
{
    let procedure = sum(q, 1)?;
    emitter.take(3, 3)?;
    one_then(emitter, a, Instr::SetP { s: q })?;
    one_then(emitter, f, Instr::SetP { s: procedure })?;
    emitter.zeros(s)?;
    emitter.turns(text, q, s, line)
}
