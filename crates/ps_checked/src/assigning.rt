ghost use Rattle.std.specs.Prelude.{◌≡◌, option_map, MatchResult};
ghost use Rattle.ps_base.specs.TyView.{ty_view};
ghost use Rattle.ps_tree.specs.Phrase.{phrase_of};
ghost use Rattle.ps_program.specs.Assigning.{assignment as assignment_of};
ghost use Rattle.ps_program.specs.NodeView.{node_of};
ghost use Rattle.ps_declared.specs.ps_scope.Content.{Content, names_of};
ghost use Rattle.ps_declared.specs.ps_typing.Checking.{can_be_assigned as can_be_assigned_of, assigned};
ghost use Rattle.ps_declared.specs.inside.Answers.{IsClause, IsMemory};

use ps_base::line::Line;
use ps_base::ty::Ty;
use ps_declared::clause::Clause;
use ps_declared::fault::CheckFault;
use ps_declared::looks::name_in;
use ps_declared::ps_scope::meaning::Meaning;
use ps_declared::ps_scope::scope::Scope;
use ps_program::form::Tree;
use ps_tree::rough::Rough;
use ps_type_text::same_type;
use std::alloc::Global;

/// Whether a clause may stand before `:=`, as far as names tell.
pub fn can_be_assigned(scope: &Scope, x: &Rough) -> bool
    ensures { result ≡ can_be_assigned_of (names_of scope.now) (phrase_of x.now) }
{
    match name_in(x) {
        None => true,
        Some(name) => match scope.find(name) {
            Some(Meaning::Local(local)) => local.variable,
            _ => false,
        },
    }
}

/// The assignment to a variable, an element or a field; none to anything else. The only fault is `Memory`.
pub fn assignment(alloc: Global, x: Tree, e: Tree) -> Result<Option<Tree>, CheckFault>
    ensures { MatchResult result (λ made. option_map node_of made ≡ assignment_of (node_of x) (node_of e)) IsMemory }
{
    match x.into_form().assigned(e) {
        Some(form) => Ok(Some(Tree::new(alloc, form)?)),
        None => Ok(None),
    }
}

/// An assignment, where there is one: what is assigned has the type of what it is assigned to. Faults: `NotAssignable`, and `Mismatch` on
/// the line of what is assigned.
pub fn assigned(
    line: Line,
    e_line: Line,
    variable: bool,
    assignment: Option<Tree>,
    wanted: Ty,
    found: Ty,
) -> Result<Clause, CheckFault>
    ensures { (scope : Content) → IsClause (assigned line e_line variable (option_map node_of assignment) (ty_view wanted) (ty_view found) (names_of scope)) result scope }
{
    let Some(tree) = assignment else {
        return Err(CheckFault::NotAssignable { line });
    };
    if !variable {
        return Err(CheckFault::NotAssignable { line });
    }
    if same_type(&found, &wanted) {
        return Ok(Clause { tree, ty: Ty::Void });
    }
    Err(CheckFault::Mismatch {
        line: e_line,
        found,
        wanted,
    })
}
