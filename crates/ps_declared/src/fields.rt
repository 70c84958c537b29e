ghost use Rattle.std.specs.Prelude.{◌≡◌, option_map};
ghost use Rattle.ps_base.specs.TyView.{ty_view};
ghost use Rattle.ps_tree.specs.PhraseLists.{phrases_in};
ghost use Rattle.ps_program.specs.Node as node;
ghost use Rattle.ps_program.specs.NodeView.{node_of};
ghost use Rattle.ps_scope.specs.Content.{names_of};
ghost use Rattle.ps_scope.specs.ps_typing.Checking.{field as field_of_value, field_name as field_name_of};
ghost use Rattle.ps_declared.specs.inside.Answers.{IsClause, IsMade};
ghost use Rattle.ps_declared.specs.inside.Views.{name_at};

use crate::clause::Clause;
use crate::fault::CheckFault;
use crate::looks::name_in;
use ps_base::line::Line;
use ps_program::form::{Tree, TreeForm};
use ps_scope::field::Field;
use ps_scope::scope::Scope;
use ps_tree::rough::Rough;
use std::alloc::Global;

/// A name by itself, and its line.
#[derive(Clone, Copy)]
pub struct FieldName<'a> {
    pub name: &'a [u8],
    pub line: Line,
}

/// The field of an object that its argument names. Faults: `NotApplicable` where the arguments aren't one name, `Unknown` where no field
/// of the name is in scope, and `Memory`.
pub fn field_of(
    alloc: Global,
    scope: &Scope,
    line: Line,
    p: Tree,
    args: &[Rough],
) -> Result<Clause, CheckFault>
    ensures { IsClause (field_of_value line (node_of p) (names_of scope.now) (field_name_of (phrases_in args.now))) result scope.now }
{
    let Some(name) = field_name(args) else {
        return Err(CheckFault::NotApplicable { line });
    };
    match scope.find_field(name.name) {
        None => Err(CheckFault::Unknown { line: name.line }),
        Some(field) => field_at(alloc, line, p, field),
    }
}

// The name that an only argument is.
fn field_name(args: &[Rough]) -> Option<FieldName>
    ensures { option_map name_at result ≡ field_name_of (phrases_in args.now) }
{
    let (only, rest) = args.split_first()?;
    if !rest.is_empty() {
        return None;
    }
    let name = name_in(only)?;
    let line = only.line;
    Some(FieldName { name, line })
}

fn field_at(alloc: Global, line: Line, e: Tree, field: &Field) -> Result<Clause, CheckFault>
    ensures { IsMade (node.Field (node_of e) field.now.class.value field.now.index (ty_view field.now.ty) line) (ty_view field.now.ty) result }
{
    let class = field.class.clone()?;
    let index = field.index;
    let ty = field.ty.copy()?;
    let gives = ty.copy()?;
    let form = TreeForm::Field {
        e,
        class,
        index,
        ty,
        line,
    };
    Clause::new(alloc, form, gives)
}
