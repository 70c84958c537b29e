ghost use Rattle.std.specs.Prelude.{◌≡◌, option_map};
ghost use Rattle.ps_base.specs.TyView.{ty_view};
ghost use Rattle.ps_base.specs.declared.line.Line.{Line as LineAt};
ghost use Rattle.ps_program.specs.Node.{Node};
ghost use Rattle.ps_program.specs.NodeView.{node_of};
ghost use Rattle.ps_declared.specs.ps_scope.Content.{Content, names_of};
ghost use Rattle.ps_declared.specs.ps_typing.Checking.{Gives, Outcome, like};
ghost use Rattle.ps_declared.specs.inside.Answers.{IsClause};
ghost use Rattle.ps_checked.specs.inside.Parts.{meets, want_of};

use crate::fits::Test;
use ps_base::line::Line;
use ps_base::ty::Ty;
use ps_declared::clause::Clause;
use ps_declared::fault::CheckFault;
use std::alloc::Global;

/// What type a clause is to have.
pub enum Wanted {
    /// Any type will do.
    Any,
    /// This one.
    This(Ty),
    /// One that passes the test.
    Passing(Test),
}

impl Drop for Wanted {
    fn drop(self) {
        match self {
            Wanted::Any => (),
            Wanted::This(_) => (),
            Wanted::Passing(_) => (),
        }
    }
}

impl Wanted {
    /// That of a clause like those before it, where there are any.
    pub fn like(given: Option<Ty>) -> Wanted
        ensures { (line : LineAt) (clause : Outcome Node) → meets (want_of result) line clause ≡ like (option_map ty_view given) line clause }
    {
        match given {
            None => Wanted::Any,
            Some(ty) => Wanted::This(ty),
        }
    }

    /// The clause on this line, where its type will do; else `Mismatch`. The only other fault is `Memory`.
    pub fn met(self, alloc: Global, clause: Clause, line: Line) -> Result<Clause, CheckFault>
        ensures { (scope : Content) → IsClause (meets (want_of self) line (Gives (node_of clause.tree) (ty_view clause.ty) (names_of scope))) result scope }
    {
        match self {
            Wanted::Any => Ok(clause),
            Wanted::This(ty) => {
                let tree = clause.of_type(line, &ty)?;
                Ok(Clause { tree, ty })
            }
            Wanted::Passing(test) => test.passed(alloc, clause, line),
        }
    }
}
