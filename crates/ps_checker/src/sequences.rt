ghost use Rattle.ps_tree.specs.Phrase as form;
ghost use Rattle.ps_tree.specs.PhraseLists.{phrases_in};
ghost use Rattle.ps_steps.specs.ps_scope.Content.{names_of};
ghost use Rattle.ps_steps.specs.ps_typing.Checking.{check_form};
ghost use Rattle.ps_steps.specs.ps_declared.inside.Answers.{IsClause};

use crate::checker::Checker;
use ps_base::line::Line;
use ps_base::ty::Ty;
use ps_steps::ps_checked::fits::void_before;
use ps_steps::ps_checked::items::block_of;
use ps_steps::ps_declared::clause::Clause;
use ps_steps::ps_declared::fault::CheckFault;
use ps_tree::rough::Rough;

impl Checker {
    #[cycle(clause)]
    pub(crate) fn sequence(&mut self, line: Line, items: &[Rough]) -> Result<Clause, CheckFault>
        ensures { IsClause (check_form (names_of self.old.scope) line (form.Sequence (phrases_in items.now))) result self.new.scope }
    {
        let block = self.scope.enter();
        let mut trees = Vec::new(self.alloc);
        let mut before = Ty::Void;
        let mut line = line;
        for item in items {
            void_before(before, line)?;
            let Clause { tree, ty } = self.clause(item)?;
            trees.push(tree)?;
            before = ty;
            line = item.line;
        }
        self.scope.leave(block);
        block_of(self.alloc, trees, before)
    }
}
