ghost use Rattle.std.specs.Prelude.{◌≡◌};
ghost use Rattle.ps_base.specs.TyView.{ty_view};
ghost use Rattle.ps_tree.specs.Phrase.{phrase_of};
ghost use Rattle.ps_program.specs.NodeView.{node_of_form};
ghost use Rattle.ps_steps.specs.ps_scope.Content.{names_of};
ghost use Rattle.ps_steps.specs.ps_typing.Checking.{check as check_of, check_if_any};
ghost use Rattle.ps_steps.specs.ps_declared.inside.Answers.{IsClause};
ghost use Rattle.ps_steps.specs.ps_checked.inside.Parts.{meets, want_of};
ghost use Rattle.ps_steps.specs.ps_declared.inside.Views.{maybe_lent};

use ps_base::ty::Ty;
use ps_program::form::TreeForm;
use ps_steps::ps_checked::wanted::Wanted;
use ps_steps::ps_declared::clause::Clause;
use ps_steps::ps_declared::fault::CheckFault;
use ps_steps::ps_scope::scope::Scope;
use ps_steps::step::{Step, step_of};
use ps_tree::rough::Rough;
use std::alloc::Global;

/// What goes over the tree of a text, in the order of the text.
///
/// Recursion is as deep as clauses stand inside one another; chains of operators and of applications are walked by a loop.
pub struct Checker {
    pub alloc: Global,
    pub scope: Scope,
}

impl Drop for Checker {
    fn drop(self) {
        let Checker { alloc: _, scope: _ } = self;
    }
}

impl Checker {
    /// The scope that the check left.
    pub fn into_scope(self) -> Scope
        ensures { result ≡ self.scope }
    {
        let Checker { alloc: _, scope } = self;
        scope
    }

    /// Checks a clause, with all that stands in it. Answers its typed tree and its type, or the first fault in the order of the text, or
    /// `Memory`; what was made until then is let go.
    #[cycle(clause)]
    pub fn clause(&mut self, rough: &Rough) -> Result<Clause, CheckFault>
        ensures { IsClause (check_of (names_of self.old.scope) (phrase_of rough.now)) result self.new.scope }
    {
        match step_of(&self.scope, rough) {
            Step::Leaf(leaf) => leaf.clause(self.alloc, &mut self.scope),
            Step::Single(form, e) => self.single(form, e),
            Step::Double(form, a, b) => self.double(form, a, b),
            Step::Triple(form, a, b, c) => self.triple(form, a, b, c),
            Step::Link(link, left) => self.chain(left, link),
            Step::Literal(literal) => self.literal(literal),
            Step::Named(name, variable, literal) => self.named_literal(name, variable, literal),
            Step::Counted(line, name, range, s) => self.counted(line, name, range, s),
            Step::Case(e, arms, d) => self.case_of(e, arms, d),
            Step::Write(items) => self.write(items),
            Step::Elements(line, l, element, items) => self.elements(line, l, element, items),
            Step::Applied(line, name_line, name, args) => {
                self.name_applied(line, name_line, name, args)
            }
            Step::Sequence(line, items) => self.sequence(line, items),
        }
    }

    /// Checks a clause that is to have such a type.
    #[cycle(clause)]
    pub(crate) fn part(&mut self, rough: &Rough, wanted: Wanted) -> Result<Clause, CheckFault>
        ensures { IsClause (meets (want_of wanted) rough.now.line (check_of (names_of self.old.scope) (phrase_of rough.now))) result self.new.scope }
    {
        let clause = self.clause(rough)?;
        wanted.met(self.alloc, clause, rough.line)
    }

    /// Checks a clause of this type that may be left out; this form stands for one that is.
    #[cycle(clause)]
    pub(crate) fn if_any(
        &mut self,
        rough: Option<&Rough>,
        wanted: Ty,
        otherwise: TreeForm,
    ) -> Result<Clause, CheckFault>
        ensures { IsClause (check_if_any (names_of self.old.scope) (ty_view wanted) (node_of_form otherwise) (maybe_lent rough.entry)) result self.new.scope }
    {
        match rough {
            None => Clause::new(self.alloc, otherwise, Ty::Void),
            Some(rough) => self.part(rough, Wanted::This(wanted)),
        }
    }
}
