ghost use Rattle.ps_base.specs.TyView.{ty_view};
ghost use Rattle.ps_tree.specs.Phrase as form;
ghost use Rattle.ps_tree.specs.PhraseLists.{phrases_in, items_in};
ghost use Rattle.ps_steps.specs.ps_scope.Content.{names_of};
ghost use Rattle.ps_steps.specs.ps_typing.Checking.{check_each, checkers};
ghost use Rattle.ps_steps.specs.ps_declared.inside.Answers.{IsClause, check_unlined};
ghost use Rattle.ps_steps.specs.ps_checked.inside.Lists.{AreTrees};

use crate::checker::Checker;
use ps_base::ty::Ty;
use ps_program::form::{Tree, TreeForm};
use ps_steps::ps_checked::fits::{Test, is_int};
use ps_steps::ps_checked::items::{one_or_sequence, push_typed};
use ps_steps::ps_checked::wanted::Wanted;
use ps_steps::ps_declared::clause::Clause;
use ps_steps::ps_declared::fault::CheckFault;
use ps_steps::ps_declared::looks::lent;
use ps_tree::rough::{Rough, RoughItem};

impl Checker {
    /// Checks clauses that are all to have this type.
    #[cycle(clause)]
    pub(crate) fn each(&mut self, ty: &Ty, clauses: &[Rough]) -> Result<Vec<Tree>, CheckFault>
        ensures { AreTrees (check_each (names_of self.old.scope) (ty_view ty.now) (checkers (phrases_in clauses.now))) result self.new.scope }
    {
        let mut trees = Vec::new(self.alloc);
        for rough in clauses {
            let clause = self.clause(rough)?;
            push_typed(&mut trees, clause, rough.line, ty)?;
        }
        Ok(trees)
    }

    #[cycle(clause)]
    pub(crate) fn write(&mut self, items: &[RoughItem]) -> Result<Clause, CheckFault>
        ensures { IsClause (check_unlined (names_of self.old.scope) (form.Write (items_in items.now))) result self.new.scope }
    {
        let mut trees = Vec::new(self.alloc);
        for item in items {
            let Clause { tree: e, ty } = self.part(&item.e, Wanted::Passing(Test::Written))?;
            let width = lent(&item.w);
            let Clause { tree: w, ty: width } = self.if_any(width, Ty::Int, TreeForm::Empty)?;
            let form = TreeForm::Write {
                e,
                w,
                wide: is_int(&width),
                ty,
                line: item.line,
            };
            let tree = Tree::new(self.alloc, form)?;
            trees.push(tree)?;
        }
        one_or_sequence(self.alloc, trees)
    }
}
