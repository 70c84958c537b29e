ghost use Rattle.std.specs.Prelude.{OnOk};
ghost use Rattle.ps_base.specs.TyView.{ty_view};
ghost use Rattle.ps_program.specs.Node as node;
ghost use Rattle.ps_program.specs.NodeView.{node_of, nodes_in};
ghost use Rattle.ps_emitter.specs.Pieces.{state_of, Puts, ◌▷◌, one};
ghost use Rattle.ps_gen.specs.inside.Clauses.{clause, clauses, made};

use crate::tree::tree;
use ps_base::instr::Instr;
use ps_base::line::Line;
use ps_base::ty::Ty;
use ps_emitter::emitter::{Emitter, number};
use ps_emitter::naming::Naming;
use ps_program::form::Tree;
use std::alloc::AllocError;

/// Clauses, one after the other.
#[cycle(tree)]
pub(crate) fn all(emitter: &mut Emitter, items: &[Tree]) -> Result<(), AllocError>
    ensures { OnOk result (Puts (clauses (nodes_in items.now)) (state_of emitter.old) (state_of emitter.new)) }
{
    for item in items {
        tree(emitter, item)?;
    }
    Ok(())
}

/// A clause, and after it an instruction.
#[cycle(tree)]
pub(crate) fn one_then(emitter: &mut Emitter, a: &Tree, instr: Instr) -> Result<(), AllocError>
    ensures { OnOk result (Puts (clause (node_of a.now) ▷ one instr) (state_of emitter.old) (state_of emitter.new)) }
{
    tree(emitter, a)?;
    emitter.put(instr)
}

/// Two clauses, and after them an instruction.
#[cycle(tree)]
pub(crate) fn two_then(
    emitter: &mut Emitter,
    a: &Tree,
    b: &Tree,
    instr: Instr,
) -> Result<(), AllocError>
    ensures { OnOk result (Puts (clause (node_of a.now) ▷ (clause (node_of b.now) ▷ one instr)) (state_of emitter.old) (state_of emitter.new)) }
{
    tree(emitter, a)?;
    one_then(emitter, b, instr)
}

/// Clauses, and after them an instruction.
#[cycle(tree)]
pub(crate) fn all_then(
    emitter: &mut Emitter,
    items: &[Tree],
    instr: Instr,
) -> Result<(), AllocError>
    ensures { OnOk result (Puts (clauses (nodes_in items.now) ▷ one instr) (state_of emitter.old) (state_of emitter.new)) }
{
    all(emitter, items)?;
    emitter.put(instr)
}

/// A vector that is filled.
#[cycle(tree)]
pub(crate) fn vector_filled(
    emitter: &mut Emitter,
    l: &Tree,
    u: &Tree,
    e: &Tree,
    ty: &Ty,
    line: Line,
) -> Result<(), AllocError>
    ensures { OnOk result (Puts (made (node.Fill (node_of l.now) (node_of u.now) (node_of e.now) (ty_view ty.now) line)) (state_of emitter.old) (state_of emitter.new)) }
{
    tree(emitter, l)?;
    tree(emitter, u)?;
    tree(emitter, e)?;
    emitter.name_type(Naming::Fill { ty, line }, ty)
}

/// A vector of these elements.
#[cycle(tree)]
pub(crate) fn vector_of(
    emitter: &mut Emitter,
    l: &Tree,
    items: &[Tree],
    ty: &Ty,
    line: Line,
) -> Result<(), AllocError>
    ensures { OnOk result (Puts (made (node.Elems (node_of l.now) (nodes_in items.now) (ty_view ty.now) line)) (state_of emitter.old) (state_of emitter.new)) }
{
    let count = number(items.len())?;
    tree(emitter, l)?;
    all(emitter, items)?;
    emitter.name_type(Naming::List { ty, count, line }, ty)
}
