ghost use Rattle.std.specs.Prelude.{◌≡◌, [], None, MatchResult};
ghost use Rattle.ps_base.specs.TyView.{ty_view};
ghost use Rattle.ps_base.specs.TyView as types;
ghost use Rattle.ps_tree.specs.Phrase.{groups_in};
ghost use Rattle.ps_program.specs.Node as node;
ghost use Rattle.ps_program.specs.Node.{body};
ghost use Rattle.ps_program.specs.NodeView.{node_of, params_of};
ghost use Rattle.ps_declared.specs.ps_scope.Content.{names_of};
ghost use Rattle.ps_declared.specs.ps_typing.Checking.{Gives, with_params, types_of};
ghost use Rattle.ps_declared.specs.inside.Answers.{IsFault, IsMade, IsMemory};
ghost use Rattle.ps_declared.specs.inside.Declaring.{AreParams, IsParam, one_param};
ghost use Rattle.ps_declared.specs.inside.Views.{groups_of, group_of, literal_of};
ghost use Rattle.ps_checked.specs.inside.Forms.{opened as opened_of};

use ps_base::list::List;
use ps_base::ty::{self, Ty};
use ps_declared::clause::Clause;
use ps_declared::declarators::{self, Declarator, MOST, declarators};
use ps_declared::fault::CheckFault;
use ps_declared::looks::Literal;
use ps_declared::ps_scope::scope::Scope;
use ps_program::body::{Body, Param};
use ps_program::form::{Tree, TreeForm};
use ps_program::place::Place;
use std::alloc::Global;

/// The parameters of a literal, one by one, and as the variables that they are.
#[derive(Drop)]
pub struct Opened<'a> {
    pub params: Vec<Declarator<'a>>,
    pub places: Vec<Param>,
}

/// The parameters of a literal, which are variables of the block that was gone into for them. Faults: `Limit` where there are more than
/// 64, `Twice`, and `Memory`.
pub fn open<'a>(
    alloc: Global,
    scope: &mut Scope,
    literal: Literal<'a>,
) -> Result<Opened<'a>, CheckFault>
    ensures { MatchResult result (λ made. (groups_of made.params.items ≡ groups_in literal.entry.params.now) × (opened_of (names_of scope.old) (literal_of literal.entry) ≡ Gives (params_of made.places.items) types.Void (names_of scope.new))) (IsFault (opened_of (names_of scope.old) (literal_of literal.entry))) }
{
    let params = declarators(alloc, literal.params)?;
    if params.len() > MOST {
        let count = params.len();
        return Err(CheckFault::Limit {
            line: literal.line,
            count,
        });
    }
    let places = parameters(alloc, scope, params.as_slice())?;
    Ok(Opened { params, places })
}

// The parameters, which are variables of a block of their own. Faults: `Twice`, and `Memory`.
fn parameters(
    alloc: Global,
    scope: &mut Scope,
    params: &[Declarator],
) -> Result<Vec<Param>, CheckFault>
    ensures { AreParams (with_params (names_of scope.old) [] (groups_of params.now)) result scope.new }
{
    let mut made = Vec::new(alloc);
    for param in params {
        let param = parameter(alloc, scope, *param)?;
        made.push(param)?;
    }
    Ok(made)
}

fn parameter(alloc: Global, scope: &mut Scope, param: Declarator) -> Result<Param, CheckFault>
    ensures { IsParam (one_param (names_of scope.old) (group_of param.entry)) result scope.new }
{
    let name = param.name.name.as_slice();
    if scope.declares(name) {
        return Err(CheckFault::Twice {
            line: param.name.line,
        });
    }
    let ty = param.ty.copy()?;
    let number = scope.declare_local(alloc, name, param.ty, true)?;
    let place = Place::Plain { slot: number };
    Ok(Param { ty, place })
}

/// The type of a literal. The only fault is `Memory`.
pub fn type_of(alloc: Global, literal: Literal) -> Result<Ty, CheckFault>
    ensures { MatchResult result (λ ty. ty_view ty ≡ types.Proc (types_of (groups_in literal.entry.params.now)) (ty_view literal.entry.gives.now)) IsMemory }
{
    let params = declarators(alloc, literal.params)?;
    let parameters = declarators::types(alloc, params.as_slice())?;
    Ok(ty::procedure_of(alloc, parameters, literal.gives.copy()?)?)
}

/// The clause of a literal with these parameters and this clause. The only fault is `Memory`.
pub fn procedure(
    alloc: Global,
    literal: Literal,
    params: &[Declarator],
    places: Vec<Param>,
    s: Tree,
) -> Result<Clause, CheckFault>
    ensures { IsMade (node.Proc (body (params_of places.items) (ty_view literal.entry.gives.now) (node_of s) None literal.entry.line)) (types.Proc (types_of (groups_of params.now)) (ty_view literal.entry.gives.now)) result }
{
    let parameters = declarators::types(alloc, params)?;
    let ty = ty::procedure_of(alloc, parameters, literal.gives.copy()?)?;
    let body = Body {
        params: List::new(places),
        gives: literal.gives.copy()?,
        tree: s,
        scope: None,
        line: literal.line,
    };
    let body = Box::new(alloc, body)?;
    Clause::new(alloc, TreeForm::Proc(body), ty)
}
