ghost use Rattle.ps_base.specs.TyView as types;
ghost use Rattle.ps_program.specs.Node as node;
ghost use Rattle.ps_program.specs.NodeView.{node_of};
ghost use Rattle.ps_declared.specs.inside.Answers.{IsMade};

use ps_base::ty::Ty;
use ps_declared::clause::Clause;
use ps_declared::fault::CheckFault;
use ps_program::form::{Loop, TreeForm};
use std::alloc::Global;

/// The clause of a loop. The only fault is `Memory`.
pub fn loop_of(alloc: Global, counted: Loop) -> Result<Clause, CheckFault>
    ensures { IsMade (node.For counted.slot (node_of counted.a) (node_of counted.b) (node_of counted.c) counted.scope counted.control (node_of counted.s) counted.line) types.Void result }
{
    let counted = Box::new(alloc, counted)?;
    Clause::new(alloc, TreeForm::For(counted), Ty::Void)
}
