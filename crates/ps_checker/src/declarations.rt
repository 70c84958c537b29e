ghost use Rattle.ps_tree.specs.Phrase.{named};
ghost use Rattle.ps_steps.specs.ps_scope.Content.{names_of};
ghost use Rattle.ps_steps.specs.ps_declared.inside.Answers.{IsClause};
ghost use Rattle.ps_steps.specs.ps_checked.inside.Forms.{check_literal, check_named};
ghost use Rattle.ps_steps.specs.ps_declared.inside.Views.{literal_of};

use crate::checker::Checker;
use ps_base::ty::Ty;
use ps_program::form::TreeForm;
use ps_program::place::Place;
use ps_steps::ps_checked::literals::{Opened, open, procedure, type_of};
use ps_steps::ps_checked::wanted::Wanted;
use ps_steps::ps_declared::clause::Clause;
use ps_steps::ps_declared::fault::CheckFault;
use ps_steps::ps_declared::looks::Literal;
use ps_tree::rough::Named;

impl Checker {
    /// A name that is declared with a literal, inside which it is in scope, too.
    #[cycle(clause)]
    pub(crate) fn named_literal(
        &mut self,
        name: &Named,
        variable: bool,
        literal: Literal,
    ) -> Result<Clause, CheckFault>
        ensures { IsClause (check_named (names_of self.old.scope) (named name.now) variable (literal_of literal.entry)) result self.new.scope }
    {
        if self.scope.declares(name.name.as_slice()) {
            return Err(CheckFault::Twice { line: name.line });
        }
        let ty = type_of(self.alloc, literal)?;
        let name = name.name.as_slice();
        let number = self.scope.declare_local(self.alloc, name, &ty, variable)?;
        let Clause { tree: e, ty } = self.literal(literal)?;
        let place = Place::Plain { slot: number };
        Clause::new(self.alloc, TreeForm::Let { place, ty, e }, Ty::Void)
    }

    /// A procedure literal.
    #[cycle(clause)]
    pub(crate) fn literal(&mut self, literal: Literal) -> Result<Clause, CheckFault>
        ensures { IsClause (check_literal (names_of self.old.scope) (literal_of literal.entry)) result self.new.scope }
    {
        let block = self.scope.enter();
        let Opened { params, places } = open(self.alloc, &mut self.scope, literal)?;
        let wanted = Wanted::This(literal.gives.copy()?);
        let Clause { tree: s, ty: _ } = self.part(literal.s, wanted)?;
        self.scope.leave(block);
        procedure(self.alloc, literal, params.as_slice(), places, s)
    }
}
