ghost use Rattle.std.specs.Prelude.{◌≡◌, ◌+◌, IfOk, OnOk, option_map};
ghost use Rattle.ps_program.specs.Node as node;
ghost use Rattle.ps_program.specs.NodeView.{node_of, nodes_in};
ghost use Rattle.ps_emitter.specs.Pieces.{state_of, Puts, at_end};
ghost use Rattle.ps_gen.specs.inside.Clauses.{clause, jumping, made, loop};

use crate::operands::{all, one_then, two_then};
use crate::scopes::{boxed_text, enter, leave, text_in};
use crate::tree::tree;
use ps_base::bytes::Bytes;
use ps_base::instr::Instr;
use ps_base::ty::Ty;
use ps_emitter::choices::set;
use ps_emitter::emitter::{Emitter, sum};
use ps_emitter::forward::Forward;
use ps_program::form::{Loop, Tree};
use std::alloc::AllocError;

// The offset so many bytes after what was made so far.
fn ahead(emitter: &Emitter, bytes: u32) -> Result<u32, AllocError>
    ensures { IfOk result (λ at. at ≡ at_end (state_of emitter.now) + bytes) }
{
    sum(emitter.here()?, bytes)
}

/// A jump over a clause.
#[cycle(tree)]
pub(crate) fn jump_over(emitter: &mut Emitter, jump: Forward, a: &Tree) -> Result<(), AllocError>
    ensures { OnOk result (Puts (jumping jump (clause (node_of a.now))) (state_of emitter.old) (state_of emitter.new)) }
{
    let hole = emitter.hole(jump.to(0))?;
    tree(emitter, a)?;
    let end = emitter.here()?;
    emitter.overwrite(hole, jump.to(end))
}

/// A sequence.
#[cycle(tree)]
pub(crate) fn block(
    emitter: &mut Emitter,
    scope: &Option<Box<Bytes>>,
    items: &[Tree],
) -> Result<(), AllocError>
    ensures { OnOk result (Puts (made (node.Block (option_map (λ bytes. bytes.value) scope.now) (nodes_in items.now))) (state_of emitter.old) (state_of emitter.new)) }
{
    let scope = boxed_text(scope);
    enter(emitter, scope)?;
    all(emitter, items)?;
    leave(emitter, scope)
}

/// One of two clauses.
#[cycle(tree)]
pub(crate) fn if_else(emitter: &mut Emitter, c: &Tree, a: &Tree, b: &Tree) -> Result<(), AllocError>
    ensures { OnOk result (Puts (made (node.IfElse (node_of c.now) (node_of a.now) (node_of b.now))) (state_of emitter.old) (state_of emitter.new)) }
{
    tree(emitter, c)?;
    let test = emitter.hole(Instr::JumpFalse { t: 0 })?;
    tree(emitter, a)?;
    let other = ahead(emitter, 5)?;
    jump_over(emitter, Forward::Jump, b)?;
    emitter.overwrite(test, Instr::JumpFalse { t: other })
}

/// A loop with its test at the start.
#[cycle(tree)]
pub(crate) fn while_loop(emitter: &mut Emitter, c: &Tree, a: &Tree) -> Result<(), AllocError>
    ensures { OnOk result (Puts (made (node.While (node_of c.now) (node_of a.now))) (state_of emitter.old) (state_of emitter.new)) }
{
    let clause = ahead(emitter, 5)?;
    jump_over(emitter, Forward::Jump, a)?;
    one_then(emitter, c, Instr::Again { t: clause })
}

/// A loop with its test between two clauses.
#[cycle(tree)]
pub(crate) fn repeat_loop(
    emitter: &mut Emitter,
    a: &Tree,
    c: &Tree,
    b: &Tree,
) -> Result<(), AllocError>
    ensures { OnOk result (Puts (made (node.Repeat (node_of a.now) (node_of c.now) (node_of b.now))) (state_of emitter.old) (state_of emitter.new)) }
{
    let between = ahead(emitter, 5)?;
    jump_over(emitter, Forward::Jump, b)?;
    two_then(emitter, a, c, Instr::Again { t: between })
}

/// A loop over ints.
#[cycle(tree)]
pub(crate) fn for_loop(emitter: &mut Emitter, it: &Loop) -> Result<(), AllocError>
    ensures { OnOk result (Puts (made (node.For it.now.slot (node_of it.now.a) (node_of it.now.b) (node_of it.now.c) it.now.scope it.now.control (node_of it.now.s) it.now.line)) (state_of emitter.old) (state_of emitter.new)) }
{
    let step = sum(it.slot, 2)?;
    let limit = step - 1;
    emitter.take(3, 0)?;
    emitter.take_place(it.control, &Ty::Int)?;
    one_then(emitter, &it.a, Instr::SetM { s: it.slot })?;
    one_then(emitter, &it.b, Instr::SetM { s: limit })?;
    one_then(emitter, &it.c, Instr::SetM { s: step })?;
    for_turns(emitter, it)
}

#[cycle(tree)]
fn for_turns(emitter: &mut Emitter, it: &Loop) -> Result<(), AllocError>
    ensures { OnOk result (Puts (loop it.now.slot it.now.scope it.now.control (node_of it.now.s) it.now.line) (state_of emitter.old) (state_of emitter.new)) }
{
    let (s, line) = (it.slot, it.line);
    let scope = text_in(&it.scope);
    let turn = ahead(emitter, 13)?;
    let hole = emitter.hole(Instr::ForStart { s, t: 0, line })?;
    enter(emitter, scope)?;
    emitter.put(Instr::GetM { s })?;
    emitter.put(set(it.control, &Ty::Int))?;
    tree(emitter, &it.s)?;
    leave(emitter, scope)?;
    emitter.put(Instr::ForNext { s, t: turn })?;
    let end = emitter.here()?;
    emitter.overwrite(hole, Instr::ForStart { s, t: end, line })
}
