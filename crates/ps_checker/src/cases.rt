ghost use Rattle.std.specs.Prelude.{None};
ghost use Rattle.ps_base.specs.TyView.{ty_view};
ghost use Rattle.ps_tree.specs.Phrase.{phrase_of};
ghost use Rattle.ps_tree.specs.Phrase as form;
ghost use Rattle.ps_tree.specs.PhraseLists.{arms_in as rough_arms_in};
ghost use Rattle.ps_steps.specs.ps_scope.Content.{names_of};
ghost use Rattle.ps_steps.specs.ps_typing.Checking.{check_arms};
ghost use Rattle.ps_steps.specs.ps_declared.inside.Answers.{IsClause, check_unlined};
ghost use Rattle.ps_steps.specs.ps_checked.inside.Cases.{AreArms};

use crate::checker::Checker;
use ps_base::list::List;
use ps_base::ty::Ty;
use ps_program::form::{Arm, TreeForm};
use ps_steps::ps_checked::arms::Arms;
use ps_steps::ps_checked::fits::Test;
use ps_steps::ps_checked::wanted::Wanted;
use ps_steps::ps_declared::clause::Clause;
use ps_steps::ps_declared::fault::CheckFault;
use ps_tree::rough::{Rough, RoughArm};

impl Checker {
    #[cycle(clause)]
    pub(crate) fn case_of(
        &mut self,
        e: &Rough,
        arms: &[RoughArm],
        d: &Rough,
    ) -> Result<Clause, CheckFault>
        ensures { IsClause (check_unlined (names_of self.old.scope) (form.Case (phrase_of e.now) (rough_arms_in arms.now) (phrase_of d.now))) result self.new.scope }
    {
        let Clause { tree: e, ty } = self.part(e, Wanted::Passing(Test::Equated))?;
        let Arms { arms, given } = self.arms(&ty, arms)?;
        let Clause { tree: d, ty: gives } = self.part(d, Wanted::like(given))?;
        let arms = List::new(arms);
        let ty = Box::new(self.alloc, ty)?;
        Clause::new(self.alloc, TreeForm::Case { e, arms, d, ty }, gives)
    }

    // The arms for values of the type. The clause of each is like those before it, where there are any.
    #[cycle(clause)]
    fn arms(&mut self, ty: &Ty, arms: &[RoughArm]) -> Result<Arms, CheckFault>
        ensures { AreArms (check_arms (names_of self.old.scope) (ty_view ty.now) None (rough_arms_in arms.now)) result self.new.scope }
    {
        let mut made = Vec::new(self.alloc);
        let mut given = None;
        for arm in arms {
            let labels = self.each(ty, arm.labels.as_slice())?;
            let Clause { tree: a, ty: own } = self.part(&arm.a, Wanted::like(given))?;
            let labels = List::new(labels);
            made.push(Arm { labels, a })?;
            given = Some(own);
        }
        Ok(Arms { arms: made, given })
    }
}
