ghost use Rattle.std.specs.Prelude.{◌+◌, [], ◌∷◌, IfOk, OnOk};
ghost use Rattle.ps_base.specs.TyView.{ty_view};
ghost use Rattle.ps_base.specs.declared.instr.Instr.TheVariants as instr;
ghost use Rattle.ps_program.specs.Node as node;
ghost use Rattle.ps_program.specs.NodeView.{node_of, nodes_in};
ghost use Rattle.ps_program.specs.inside.PartsView.{arms_in};
ghost use Rattle.ps_emitter.specs.Pieces.{state_of, Puts, Opens, Halfway, one, to_behind};
ghost use Rattle.ps_gen.specs.inside.Clauses.{labels_of, label_of, arm_of, made};

use crate::tree::tree;
use ps_base::instr::Instr;
use ps_base::operator::Relation;
use ps_base::ty::Ty;
use ps_emitter::choices::{by_type, compare};
use ps_emitter::emitter::Emitter;
use ps_program::form::{Arm, Tree};
use std::alloc::AllocError;

/// The clause of the first arm with a label that is the value of the first.
#[cycle(tree)]
pub(crate) fn case(
    emitter: &mut Emitter,
    e: &Tree,
    arms: &[Arm],
    d: &Tree,
    ty: &Ty,
) -> Result<(), AllocError>
    ensures { OnOk result (Puts (made (node.Case (node_of e.now) (arms_in arms.now) (node_of d.now) (ty_view ty.now))) (state_of emitter.old) (state_of emitter.new)) }
{
    tree(emitter, e)?;
    let mut ends = Vec::new(emitter.alloc);
    for arm in arms {
        let end = put_arm(emitter, arm.labels.as_slice(), &arm.a, ty)?;
        ends.push(end)?;
    }
    emitter.put(by_type(ty, Instr::DropM, Instr::DropP))?;
    tree(emitter, d)?;
    let end = emitter.here()?;
    emitter.fill(ends.as_slice(), Instr::Jump { t: end })
}

// An arm, without the target of the jump to the end, whose offset is answered.
#[cycle(tree)]
fn put_arm(emitter: &mut Emitter, labels: &[Tree], a: &Tree, ty: &Ty) -> Result<u32, AllocError>
    ensures { IfOk result (λ out. Opens instr.Jump (arm_of (ty_view ty.now) (nodes_in labels.now) (node_of a.now)) (out ∷ []) (state_of emitter.old) (state_of emitter.new)) }
{
    let past = arm_labels(emitter, labels, ty)?;
    emitter.put(by_type(ty, Instr::DropM, Instr::DropP))?;
    tree(emitter, a)?;
    let out = emitter.hole(Instr::Jump { t: 0 })?;
    let next = emitter.here()?;
    emitter.overwrite(past, Instr::Jump { t: next })?;
    Ok(out)
}

// The labels of an arm, and the jump past it, whose offset is answered.
#[cycle(tree)]
fn arm_labels(emitter: &mut Emitter, labels: &[Tree], ty: &Ty) -> Result<u32, AllocError>
    ensures { IfOk result (λ past. Halfway (to_behind (λ end. end + 5) (labels_of (ty_view ty.now) (nodes_in labels.now))) (one (instr.Jump 0)) past (state_of emitter.old) (state_of emitter.new)) }
{
    let mut holes = Vec::new(emitter.alloc);
    for label in labels {
        let hole = put_label(emitter, label, ty)?;
        holes.push(hole)?;
    }
    let past = emitter.hole(Instr::Jump { t: 0 })?;
    let chosen = emitter.here()?;
    emitter.fill(holes.as_slice(), Instr::JumpTrue { t: chosen })?;
    Ok(past)
}

// The test of a label, without the target of its jump, whose offset is answered.
#[cycle(tree)]
fn put_label(emitter: &mut Emitter, label: &Tree, ty: &Ty) -> Result<u32, AllocError>
    ensures { IfOk result (λ hole. Opens instr.JumpTrue (label_of (ty_view ty.now) (node_of label.now)) (hole ∷ []) (state_of emitter.old) (state_of emitter.new)) }
{
    emitter.put(by_type(ty, Instr::DupM, Instr::DupP))?;
    tree(emitter, label)?;
    emitter.put(compare(Relation::Equal, ty))?;
    emitter.hole(Instr::JumpTrue { t: 0 })
}
