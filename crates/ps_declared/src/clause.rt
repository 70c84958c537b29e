ghost use Rattle.ps_base.specs.TyView.{ty_view};
ghost use Rattle.ps_program.specs.NodeView.{node_of, node_of_form};
ghost use Rattle.ps_scope.specs.Content.{Content, names_of};
ghost use Rattle.ps_scope.specs.ps_typing.Checking.{Gives, wants};
ghost use Rattle.ps_declared.specs.inside.Answers.{IsMade, IsOfType};

use crate::fault::CheckFault;
use ps_base::line::Line;
use ps_base::ty::Ty;
use ps_program::form::{Tree, TreeForm};
use ps_type_text::same_type;
use std::alloc::Global;

/// A clause that was checked: its typed tree, and its type.
#[derive(Drop)]
pub struct Clause {
    pub tree: Tree,
    pub ty: Ty,
}

impl Clause {
    /// The clause of this form and this type. The only fault is `Memory`.
    pub fn new(alloc: Global, form: TreeForm, ty: Ty) -> Result<Clause, CheckFault>
        ensures { IsMade (node_of_form form) (ty_view ty) result }
    {
        let tree = Tree::new(alloc, form)?;
        Ok(Clause { tree, ty })
    }

    /// The tree of a clause on this line, where its type is this one; else `Mismatch`. The only other fault is `Memory`.
    pub fn of_type(self, line: Line, wanted: &Ty) -> Result<Tree, CheckFault>
        ensures { (scope : Content) → IsOfType (ty_view wanted.now) (wants (ty_view wanted.now) line (Gives (node_of self.tree) (ty_view self.ty) (names_of scope))) result scope }
    {
        let Clause { tree, ty: found } = self;
        if same_type(&found, wanted) {
            return Ok(tree);
        }
        let wanted = wanted.copy()?;
        Err(CheckFault::Mismatch {
            line,
            found,
            wanted,
        })
    }
}
