ghost use Rattle.std.specs.Prelude.{◌≡◌, option_map, MatchResult};
ghost use Rattle.ps_base.specs.TyView.{ty_view};
ghost use Rattle.ps_base.specs.TyView as types;
ghost use Rattle.ps_tree.specs.Phrase.{named};
ghost use Rattle.ps_program.specs.declared.place.Place.TheVariants.{Plain};
ghost use Rattle.ps_program.specs.Node as node;
ghost use Rattle.ps_program.specs.NodeView.{node_of};
ghost use Rattle.ps_scope.specs.Content.{names_of};
ghost use Rattle.ps_scope.specs.Views.{meaning_of};
ghost use Rattle.ps_scope.specs.ps_typing.Names.{meant};
ghost use Rattle.ps_scope.specs.ps_typing.Checking.{used as used_of, introduced as introduced_of};
ghost use Rattle.ps_declared.specs.inside.Answers.{IsClause, IsMade, IsMemory};

use crate::clause::Clause;
use crate::declarators::bytes_of;
use crate::fault::CheckFault;
use ps_base::line::Line;
use ps_base::ty::Ty;
use ps_program::form::{Tree, TreeForm};
use ps_program::place::Place;
use ps_scope::meaning::{Local, Meaning};
use ps_scope::scope::Scope;
use ps_tree::rough::Named;
use std::alloc::Global;

/// What a name means, where it is in scope. The only fault is `Memory`.
pub fn meaning(scope: &Scope, name: &[u8]) -> Result<Option<Meaning>, CheckFault>
    ensures { MatchResult result (λ found. option_map meaning_of found ≡ meant (names_of scope.now) name.now) IsMemory }
{
    match scope.find(name) {
        Some(meaning) => Ok(Some(meaning.copy()?)),
        None => Ok(None),
    }
}

/// A name by itself: that of a local. Faults: `Unknown`, `NotApplicable` of a class or a procedure of the library, and `Memory`.
pub fn used(alloc: Global, scope: &Scope, line: Line, name: &[u8]) -> Result<Clause, CheckFault>
    ensures { IsClause (used_of line (names_of scope.now) (meant (names_of scope.now) name.now)) result scope.now }
{
    match meaning(scope, name)? {
        None => Err(CheckFault::Unknown { line }),
        Some(Meaning::Local(local)) => value_of(alloc, local),
        Some(_) => Err(CheckFault::NotApplicable { line }),
    }
}

/// The value of a local. The only fault is `Memory`.
pub fn value_of(alloc: Global, local: Local) -> Result<Clause, CheckFault>
    ensures { IsMade (node.Name (Plain local.number) (ty_view local.ty)) (ty_view local.ty) result }
{
    let Local {
        number,
        ty,
        variable: _,
    } = local;
    let place = Place::Plain { slot: number };
    let gives = ty.copy()?;
    Clause::new(alloc, TreeForm::Name { place, ty }, gives)
}

/// A string that stands in the text. The only fault is `Memory`.
pub fn text(alloc: Global, bytes: &[u8]) -> Result<Clause, CheckFault>
    ensures { IsMade (node.Text bytes.now) types.Str result }
{
    let bytes = bytes_of(alloc, bytes)?;
    Clause::new(alloc, TreeForm::Text(bytes), Ty::Str)
}

/// A name that is declared after its initial value, of this type. Faults: `Twice` where the block declares it already, and `Memory`.
pub fn introduced(
    alloc: Global,
    scope: &mut Scope,
    name: &Named,
    variable: bool,
    e: Tree,
    ty: Ty,
) -> Result<Clause, CheckFault>
    ensures { IsClause (introduced_of (named name.now) variable (node_of e) (ty_view ty) (names_of scope.old)) result scope.new }
{
    if scope.declares(name.name.as_slice()) {
        return Err(CheckFault::Twice { line: name.line });
    }
    let name = name.name.as_slice();
    let number = scope.declare_local(alloc, name, &ty, variable)?;
    let place = Place::Plain { slot: number };
    Clause::new(alloc, TreeForm::Let { place, ty, e }, Ty::Void)
}
