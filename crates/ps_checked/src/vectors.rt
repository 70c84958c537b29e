ghost use Rattle.std.specs.Prelude.{◌≡◌, if◌then◌else◌, MatchResult};
ghost use Rattle.ps_base.specs.TyView.{ty_view};
ghost use Rattle.ps_base.specs.TyView as types;
ghost use Rattle.ps_tree.specs.Phrase.{Phrase};
ghost use Rattle.ps_program.specs.Node as node;
ghost use Rattle.ps_program.specs.NodeView.{node_of, nodes_in};
ghost use Rattle.ps_declared.specs.ps_typing.Library.{caller as caller_of};
ghost use Rattle.ps_declared.specs.ps_typing.Names.{Names};
ghost use Rattle.ps_declared.specs.inside.Answers.{IsFault, IsMade, IsMemory};
ghost use Rattle.ps_checked.specs.inside.Forms.{check_element};
ghost use Rattle.ps_checked.specs.inside.Parts.{check_single};

use crate::single::Single;
use ps_base::line::Line;
use ps_base::list::List;
use ps_base::ty::{self, Ty};
use ps_declared::clause::Clause;
use ps_declared::fault::CheckFault;
use ps_program::form::{Tree, TreeForm};
use std::alloc::Global;

/// The vector from `l` to `u` whose elements are all `e`, of this type. The only fault is `Memory`.
pub fn filled(
    alloc: Global,
    line: Line,
    l: Tree,
    u: Tree,
    e: Tree,
    element: Ty,
) -> Result<Clause, CheckFault>
    ensures { IsMade (node.Fill (node_of l) (node_of u) (node_of e) (types.Vector (ty_view element)) line) (types.Vector (ty_view element)) result }
{
    let ty = ty::vector_of(alloc, element)?;
    let gives = ty.copy()?;
    Clause::new(alloc, TreeForm::Fill { l, u, e, ty, line }, gives)
}

/// The vector of these elements, of this type, from `l` on. The only fault is `Memory`.
pub fn listed(
    alloc: Global,
    line: Line,
    l: Tree,
    items: Vec<Tree>,
    element: &Ty,
) -> Result<Clause, CheckFault>
    ensures { IsMade (node.Elems (node_of l) (nodes_in items.items) (types.Vector (ty_view element.now)) line) (types.Vector (ty_view element.now)) result }
{
    let items = List::new(items);
    let ty = ty::vector_of(alloc, element.copy()?)?;
    let gives = ty.copy()?;
    let ty = Box::new(alloc, ty)?;
    Clause::new(alloc, TreeForm::Elems { l, items, ty, line }, gives)
}

/// What is left of an element of a vector, before its subscript was checked; `NotApplicable` where it is no vector. The only other fault is `Memory`.
pub fn subscripted<'a>(line: Line, v: Clause) -> Result<Single<'a>, CheckFault>
    ensures { (names : Names) (i : Phrase) → MatchResult result (λ form. check_element names line (node_of v.tree) (ty_view v.ty) i ≡ check_single form names i) (IsFault (check_element names line (node_of v.tree) (ty_view v.ty) i)) }
{
    let Clause { tree, ty } = v;
    match &ty {
        Ty::Vector(element) => {
            let ty = element.copy()?;
            Ok(Single::Element { v: tree, ty, line })
        }
        Ty::Int => Err(CheckFault::NotApplicable { line }),
        Ty::Bool => Err(CheckFault::NotApplicable { line }),
        Ty::Str => Err(CheckFault::NotApplicable { line }),
        Ty::Pntr => Err(CheckFault::NotApplicable { line }),
        Ty::Void => Err(CheckFault::NotApplicable { line }),
        Ty::Proc(_) => Err(CheckFault::NotApplicable { line }),
    }
}

/// The element of a vector at a subscript, of this type. The only fault is `Memory`.
pub fn element_at(alloc: Global, line: Line, v: Tree, i: Tree, ty: Ty) -> Result<Clause, CheckFault>
    ensures { IsMade (node.Element (node_of v) (node_of i) (ty_view ty) line) (ty_view ty) result }
{
    let gives = ty.copy()?;
    Clause::new(alloc, TreeForm::Element { v, i, ty, line }, gives)
}

/// The type of the procedure that a scan calls with each key and its value. The only fault is `Memory`.
pub fn caller(alloc: Global, text: bool) -> Result<Ty, CheckFault>
    ensures { MatchResult result (λ ty. ty_view ty ≡ caller_of (if text then types.Str else types.Int)) IsMemory }
{
    let key = if text { Ty::Str } else { Ty::Int };
    let mut parameters = Vec::new(alloc);
    parameters.push(key)?;
    parameters.push(Ty::Pntr)?;
    Ok(ty::procedure_of(alloc, parameters, Ty::Bool)?)
}
