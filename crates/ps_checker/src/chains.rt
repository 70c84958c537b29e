ghost use Rattle.ps_base.specs.TyView.{ty_view};
ghost use Rattle.ps_tree.specs.Phrase.{phrase_of};
ghost use Rattle.ps_program.specs.NodeView.{node_of};
ghost use Rattle.ps_steps.specs.ps_scope.Content.{names_of};
ghost use Rattle.ps_steps.specs.ps_typing.Checking.{Gives, check as check_of};
ghost use Rattle.ps_steps.specs.ps_declared.inside.Answers.{IsClause};
ghost use Rattle.ps_steps.specs.ps_checked.inside.Links.{check_link};

use crate::checker::Checker;
use ps_base::ty::Ty;
use ps_steps::ps_checked::chain::{Chain, gather};
use ps_steps::ps_checked::double::Double;
use ps_steps::ps_checked::link::Link;
use ps_steps::ps_checked::single::Single;
use ps_steps::ps_declared::clause::Clause;
use ps_steps::ps_declared::fault::CheckFault;
use ps_tree::rough::Rough;

impl Checker {
    /// A chain from its innermost left operand on: the links are gathered on the way to it, and checked on the way back.
    #[cycle(clause)]
    pub(crate) fn chain(&mut self, left: &Rough, last: Link) -> Result<Clause, CheckFault>
        ensures { IsClause (check_link last.entry (check_of (names_of self.old.scope) (phrase_of left.now))) result self.new.scope }
    {
        let Chain { links, innermost } = gather(self.alloc, last, left)?;
        let mut links = links;
        let mut chain = self.clause(innermost)?;
        while let Some(link) = links.pop() {
            chain = self.link(link, chain)?;
        }
        Ok(chain)
    }

    #[cycle(clause)]
    fn link(&mut self, link: Link, left: Clause) -> Result<Clause, CheckFault>
        ensures { IsClause (check_link link.entry (Gives (node_of left.tree) (ty_view left.ty) (names_of self.old.scope))) result self.new.scope }
    {
        match link {
            Link::Operator {
                joint,
                left_line,
                right,
            } => {
                let left = left.of_type(left_line, &joint.ty())?;
                self.single(Single::Joined { joint, left }, right)
            }
            Link::Apply { line, args } => self.apply(line, left, args),
            Link::Part {
                line,
                left_line,
                i,
                n,
            } => {
                let s = left.of_type(left_line, &Ty::Str)?;
                self.double(Double::Part { s, line }, i, n)
            }
        }
    }
}
