ghost use Rattle.std.specs.Prelude.{◌≡◌, map, option_map, MatchResult};
ghost use Rattle.ps_base.specs.TyView as types;
ghost use Rattle.ps_tree.specs.Phrase.{named, groups_in};
ghost use Rattle.ps_program.specs.NodeView.{node_of};
ghost use Rattle.ps_type_text.specs.Texts.{class_text as class_text_of};
ghost use Rattle.ps_scope.specs.Content.{names_of};
ghost use Rattle.ps_scope.specs.Views.{class_of, meaning_of};
ghost use Rattle.ps_scope.specs.ps_typing.Names.{meant};
ghost use Rattle.ps_scope.specs.ps_typing.Names as names;
ghost use Rattle.ps_scope.specs.ps_typing.Checking.{structure as structure_of, with_fields, types_of, field_of, is_of};
ghost use Rattle.ps_declared.specs.inside.Answers.{IsClause, IsMade, IsMemory};
ghost use Rattle.ps_declared.specs.inside.Declaring.{AreFields, one_field};
ghost use Rattle.ps_declared.specs.inside.Meant.{class_meant, class_test};
ghost use Rattle.ps_declared.specs.inside.Views.{groups_of, group_of};

use crate::clause::Clause;
use crate::declarators::{self, Declarator, MOST, bytes_of, declarators};
use crate::fault::CheckFault;
use crate::names::meaning;
use ps_base::bytes::Bytes;
use ps_base::line::Line;
use ps_base::list::List;
use ps_base::ty::Ty;
use ps_program::form::{Tree, TreeForm};
use ps_scope::field::Field;
use ps_scope::meaning::{Class, Meaning};
use ps_scope::scope::Scope;
use ps_tree::rough::{Group, Named};
use ps_type_text::class_text;
use std::alloc::Global;
use std::rc::Rc;

/// A class that is declared, with its fields. Faults: `Limit`, `Twice` of the class and of a field, and `Memory`.
pub fn structure(
    alloc: Global,
    scope: &mut Scope,
    line: Line,
    name: &Named,
    fields: &[Group],
) -> Result<Clause, CheckFault>
    ensures { IsClause (structure_of (names_of scope.old) line (named name.now) (groups_in fields.now)) result scope.new }
{
    let fields = declarators(alloc, fields)?;
    if fields.len() > MOST {
        let count = fields.len();
        return Err(CheckFault::Limit { line, count });
    }
    if scope.declares(name.name.as_slice()) {
        return Err(CheckFault::Twice { line: name.line });
    }
    let class = class_named(alloc, name, fields.as_slice())?;
    let text = class.text.clone()?;
    let name = name.name.as_slice();
    scope.declare_class(alloc, name, class)?;
    declare_fields(alloc, scope, text, fields.as_slice())?;
    Clause::new(alloc, TreeForm::Class, Ty::Void)
}

// The class of this name and these fields.
fn class_named(alloc: Global, name: &Named, fields: &[Declarator]) -> Result<Rc<Class>, CheckFault>
    ensures { MatchResult result (λ class. class_of class.value ≡ names.class (class_text_of name.now.name (map field_of (groups_of fields.now))) (types_of (groups_of fields.now))) IsMemory }
{
    let members = declarators::members(alloc, fields)?;
    let text = class_text(alloc, name.name.as_slice(), members.as_slice())?;
    let text = Rc::new(alloc, text)?;
    let fields = List::new(declarators::types(alloc, fields)?);
    Ok(Rc::new(alloc, Class { text, fields })?)
}

// The fields of the class of this text.
fn declare_fields(
    alloc: Global,
    scope: &mut Scope,
    text: Rc<Bytes>,
    fields: &[Declarator],
) -> Result<(), CheckFault>
    ensures { AreFields (with_fields (names_of scope.old) text.value 0 (groups_of fields.now)) result scope.new }
{
    let mut index = 0;
    for field in fields {
        declare_field(alloc, scope, &text, index, *field)?;
        index = index.checked_add(1).ok_or(CheckFault::Memory)?;
    }
    Ok(())
}

fn declare_field(
    alloc: Global,
    scope: &mut Scope,
    text: &Rc<Bytes>,
    index: u32,
    field: Declarator,
) -> Result<(), CheckFault>
    ensures { AreFields (one_field (names_of scope.old) text.now.value index (group_of field.entry)) result scope.new }
{
    let name = field.name.name.as_slice();
    if scope.declares_field(name) {
        return Err(CheckFault::Twice {
            line: field.name.line,
        });
    }
    let field = Field {
        name: bytes_of(alloc, name)?,
        class: text.clone()?,
        index,
        ty: field.ty.copy()?,
    };
    scope.declare_field(field)?;
    Ok(())
}

/// Whether an object is of the class of this name, or isn't. Faults: `Unknown` where the name means no class, and `Memory`.
pub fn class_tested(
    alloc: Global,
    scope: &Scope,
    e: Tree,
    class: &Named,
    negated: bool,
) -> Result<Clause, CheckFault>
    ensures { IsClause (is_of (named class.now) negated (node_of e) (names_of scope.now) (meant (names_of scope.now) (named class.now).name)) result scope.now }
{
    let meaning = meaning(scope, class.name.as_slice())?;
    let Some(meant) = class_in(meaning) else {
        return Err(CheckFault::Unknown { line: class.line });
    };
    class_test(alloc, e, meant.text.clone()?, negated)
}

// The class that is meant, where one is.
fn class_in(meaning: Option<Meaning>) -> Option<Rc<Class>>
    ensures { option_map (λ class. class_of class.value) result ≡ class_meant (option_map meaning_of meaning) }
{
    match meaning {
        Some(Meaning::Class(class)) => Some(class),
        Some(Meaning::Local(_)) => None,
        Some(Meaning::Library(_)) => None,
        None => None,
    }
}

fn class_test(alloc: Global, e: Tree, class: Rc<Bytes>, negated: bool) -> Result<Clause, CheckFault>
    ensures { IsMade (class_test negated (node_of e) class.value) types.Bool result }
{
    let is = TreeForm::Is { e, class };
    if negated {
        let is = Tree::new(alloc, is)?;
        return Clause::new(alloc, TreeForm::Not(is), Ty::Bool);
    }
    Clause::new(alloc, is, Ty::Bool)
}
