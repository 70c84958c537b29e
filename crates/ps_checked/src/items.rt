ghost use Rattle.std.specs.Prelude.{◌≡◌, None, IfSome};
ghost use Rattle.ps_base.specs.TyView.{ty_view};
ghost use Rattle.ps_base.specs.TyView as types;
ghost use Rattle.ps_tree.specs.Phrase.{phrase_of};
ghost use Rattle.ps_tree.specs.Phrase as form;
ghost use Rattle.ps_tree.specs.PhraseLists.{phrases_in};
ghost use Rattle.ps_program.specs.Node as node;
ghost use Rattle.ps_program.specs.NodeView.{node_of, nodes_in};
ghost use Rattle.ps_declared.specs.ps_scope.Content.{Content, names_of};
ghost use Rattle.ps_declared.specs.ps_typing.Checking.{Gives, together, wants};
ghost use Rattle.ps_declared.specs.ps_typing.Program.{end_line as end_line_of};
ghost use Rattle.ps_declared.specs.inside.Answers.{IsMade};
ghost use Rattle.ps_checked.specs.inside.Lists.{IsPushed};

use ps_base::line::Line;
use ps_base::list::List;
use ps_base::ty::Ty;
use ps_declared::clause::Clause;
use ps_declared::fault::CheckFault;
use ps_program::form::{Tree, TreeForm};
use ps_tree::rough::{Rough, RoughForm};
use std::alloc::Global;
use std::mem;

/// The items of a program that is a sequence, which is left empty.
pub fn taken_items(alloc: Global, program: &mut Rough) -> Option<Vec<Rough>>
    ensures taken { IfSome result (λ items. phrase_of program.old ≡ form.at (form.Sequence (phrases_in items.items)) program.old.line) }
    ensures left { result ≡ None → phrase_of program.new ≡ phrase_of program.old }
{
    match &mut *program.form {
        RoughForm::Sequence { items } => {
            Some(mem::replace(items, List::new(Vec::new(alloc))).into_vec())
        }
        _ => None,
    }
}

/// The line of a program's last clause.
pub fn end_line(program: &Rough) -> Line
    ensures { result ≡ end_line_of (phrase_of program.now) }
{
    match &*program.form {
        RoughForm::Sequence { items } => match items.as_slice() {
            [.., last] => last.line,
            [] => program.line,
        },
        _ => program.line,
    }
}

/// A sequence that keeps no names, whose value has this type. The only fault is `Memory`.
pub fn block_of(alloc: Global, items: Vec<Tree>, ty: Ty) -> Result<Clause, CheckFault>
    ensures { IsMade (node.Block None (nodes_in items.items)) (ty_view ty) result }
{
    let items = List::new(items);
    Clause::new(alloc, TreeForm::Block { scope: None, items }, ty)
}

/// One write by itself, or several as a sequence. The only fault is `Memory`.
pub fn one_or_sequence(alloc: Global, mut items: Vec<Tree>) -> Result<Clause, CheckFault>
    ensures { IsMade (together (nodes_in items.items)) types.Void result }
{
    if items.len() != 1 {
        return block_of(alloc, items, Ty::Void);
    }
    match items.pop() {
        Some(tree) => Ok(Clause { tree, ty: Ty::Void }),
        None => unreachable!(),
    }
}

/// Puts the tree of a clause on this line after others, where its type is this one; else `Mismatch`. The only other fault is `Memory`.
pub fn push_typed(
    trees: &mut Vec<Tree>,
    clause: Clause,
    line: Line,
    ty: &Ty,
) -> Result<(), CheckFault>
    ensures { (scope : Content) → IsPushed (ty_view ty.now) (wants (ty_view ty.now) line (Gives (node_of clause.tree) (ty_view clause.ty) (names_of scope))) trees.old.items trees.new.items result scope }
{
    let tree = clause.of_type(line, ty)?;
    trees.push(tree)?;
    Ok(())
}
