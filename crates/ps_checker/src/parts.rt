ghost use Rattle.ps_base.specs.TyView.{ty_view};
ghost use Rattle.ps_tree.specs.Phrase.{phrase_of, named};
ghost use Rattle.ps_tree.specs.Phrase as form;
ghost use Rattle.ps_tree.specs.PhraseLists.{phrases_in, maybe_in};
ghost use Rattle.ps_tree.specs.declared.rough.RoughRange.{out-RoughRange};
ghost use Rattle.ps_steps.specs.ps_scope.Content.{names_of};
ghost use Rattle.ps_steps.specs.ps_typing.Checking.{check_form};
ghost use Rattle.ps_steps.specs.ps_declared.inside.Answers.{IsClause};
ghost use Rattle.ps_steps.specs.ps_checked.inside.Parts.{check_single, check_double, check_triple};

use crate::checker::Checker;
use ps_base::line::Line;
use ps_base::ty::Ty;
use ps_program::form::{Loop, TreeForm};
use ps_program::place::Place;
use ps_steps::ps_checked::double::Double;
use ps_steps::ps_checked::loops::loop_of;
use ps_steps::ps_checked::single::Single;
use ps_steps::ps_checked::triple::Triple;
use ps_steps::ps_checked::vectors::listed;
use ps_steps::ps_checked::wanted::Wanted;
use ps_steps::ps_declared::clause::Clause;
use ps_steps::ps_declared::fault::CheckFault;
use ps_steps::ps_declared::looks::lent;
use ps_tree::rough::{Named, Rough, RoughRange};

impl Checker {
    /// A form with one part left.
    #[cycle(clause)]
    pub(crate) fn single(&mut self, form: Single, e: &Rough) -> Result<Clause, CheckFault>
        ensures { IsClause (check_single form.entry (names_of self.old.scope) (phrase_of e.now)) result self.new.scope }
    {
        let e = self.part(e, form.wanted())?;
        form.made(self.alloc, &mut self.scope, e)
    }

    /// A form with two parts left.
    #[cycle(clause)]
    pub(crate) fn double(
        &mut self,
        form: Double,
        a: &Rough,
        b: &Rough,
    ) -> Result<Clause, CheckFault>
        ensures { IsClause (check_double form (names_of self.old.scope) (phrase_of a.now) (phrase_of b.now)) result self.new.scope }
    {
        let a = self.part(a, form.first())?;
        let wanted = form.second(self.alloc, &a.ty)?;
        let b = self.part(b, wanted)?;
        form.made(self.alloc, a, b)
    }

    /// A form with three parts left.
    #[cycle(clause)]
    pub(crate) fn triple(
        &mut self,
        form: Triple,
        a: &Rough,
        b: &Rough,
        c: &Rough,
    ) -> Result<Clause, CheckFault>
        ensures { IsClause (check_triple form (names_of self.old.scope) (phrase_of a.now) (phrase_of b.now) (phrase_of c.now)) result self.new.scope }
    {
        let Clause { tree, ty: _ } = self.part(a, form.first())?;
        self.double(form.rest(tree), b, c)
    }

    #[cycle(clause)]
    pub(crate) fn elements(
        &mut self,
        line: Line,
        l: &Rough,
        element: &Ty,
        items: &[Rough],
    ) -> Result<Clause, CheckFault>
        ensures { IsClause (check_form (names_of self.old.scope) line (form.Elems (phrase_of l.now) (ty_view element.now) (phrases_in items.now))) result self.new.scope }
    {
        let Clause { tree: l, ty: _ } = self.part(l, Wanted::This(Ty::Int))?;
        let items = self.each(element, items)?;
        listed(self.alloc, line, l, items, element)
    }

    #[cycle(clause)]
    pub(crate) fn counted(
        &mut self,
        line: Line,
        name: &Named,
        range: &RoughRange,
        s: &Rough,
    ) -> Result<Clause, CheckFault>
        ensures { IsClause (check_form (names_of self.old.scope) line (form.For (named name.now) (phrase_of (out-RoughRange range.now).a) (phrase_of (out-RoughRange range.now).b) (maybe_in (out-RoughRange range.now).c) (phrase_of s.now))) result self.new.scope }
    {
        let Clause { tree: a, ty: _ } = self.part(&range.a, Wanted::This(Ty::Int))?;
        let Clause { tree: b, ty: _ } = self.part(&range.b, Wanted::This(Ty::Int))?;
        let Clause { tree: c, ty: _ } = self.if_any(lent(&range.c), Ty::Int, TreeForm::Int(1))?;
        let block = self.scope.enter();
        let name = name.name.as_slice();
        let number = self.scope.declare_local(self.alloc, name, &Ty::Int, false)?;
        let Clause { tree: s, ty: _ } = self.part(s, Wanted::This(Ty::Void))?;
        self.scope.leave(block);
        let control = Place::Plain { slot: number };
        loop_of(
            self.alloc,
            Loop {
                slot: 0,
                a,
                b,
                c,
                scope: None,
                control,
                s,
                line,
            },
        )
    }
}
