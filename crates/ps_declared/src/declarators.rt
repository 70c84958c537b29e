ghost use Rattle.std.specs.Prelude.{◌≡◌, ◌++◌, map, MatchResult, IfErr, OnOk};
ghost use Rattle.ps_base.specs.TyView.{ty_views};
ghost use Rattle.ps_tree.specs.Phrase.{groups_in, group_of as names_of_group};
ghost use Rattle.ps_type_text.specs.Members.{fields_of};
ghost use Rattle.ps_scope.specs.ps_typing.Checking.{types_of, field_of};
ghost use Rattle.ps_declared.specs.inside.Answers.{IsMemory};
ghost use Rattle.ps_declared.specs.inside.Views.{groups_of};

use crate::fault::CheckFault;
use ps_base::bytes::Bytes;
use ps_base::ty::Ty;
use ps_tree::rough::{Group, Named};
use ps_type_text::Member;
use std::alloc::Global;

/// The most parameters of a procedure, and the most fields of a structure.
pub const MOST: usize = 64;

/// A parameter of a procedure or a field of a structure.
#[derive(Clone, Copy)]
pub struct Declarator<'a> {
    pub ty: &'a Ty,
    pub name: &'a Named,
}

/// The names of some groups, one by one, each with the type of its group.
pub fn declarators(alloc: Global, groups: &[Group]) -> Result<Vec<Declarator>, CheckFault>
    ensures { MatchResult result (λ made. groups_of made.items ≡ groups_in groups.now) IsMemory }
{
    let mut made = Vec::with_capacity(alloc, groups.len())?;
    for group in groups {
        put_group(&mut made, group)?;
    }
    Ok(made)
}

fn put_group<'a>(made: &mut Vec<Declarator<'a>>, group: &'a Group) -> Result<(), CheckFault>
    ensures put { OnOk result (groups_of made.new.items ≡ groups_of made.old.items ++ names_of_group group.now) }
    ensures fault { IfErr result IsMemory }
{
    let ty = &group.ty;
    made.push(Declarator {
        ty,
        name: &group.first,
    })?;
    for name in group.more.as_slice() {
        made.push(Declarator { ty, name })?;
    }
    Ok(())
}

/// Their types.
pub fn types(alloc: Global, declarators: &[Declarator]) -> Result<Vec<Ty>, CheckFault>
    ensures { MatchResult result (λ made. ty_views made.items ≡ types_of (groups_of declarators.now)) IsMemory }
{
    let mut made = Vec::with_capacity(alloc, declarators.len())?;
    for declarator in declarators {
        made.push(declarator.ty.copy()?)?;
    }
    Ok(made)
}

/// Their types and names, as a class's text wants them.
pub fn members(alloc: Global, declarators: &[Declarator]) -> Result<Vec<Member>, CheckFault>
    ensures { MatchResult result (λ made. fields_of made.items ≡ map field_of (groups_of declarators.now)) IsMemory }
{
    let mut made = Vec::with_capacity(alloc, declarators.len())?;
    for declarator in declarators {
        let ty = declarator.ty.copy()?;
        let name = bytes_of(alloc, declarator.name.name.as_slice())?;
        made.push(Member { ty, name })?;
    }
    Ok(made)
}

/// The same bytes once more.
pub fn bytes_of(alloc: Global, bytes: &[u8]) -> Result<Bytes, CheckFault>
    ensures { MatchResult result (λ made. made ≡ bytes.now) IsMemory }
{
    Ok(Bytes::new(Vec::from_slice(alloc, bytes)?))
}
