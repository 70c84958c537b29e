ghost use Rattle.std.specs.Prelude.{◌≡◌};
ghost use Rattle.ps_program.specs.NodeView.{node_of};
ghost use Rattle.ps_tree.specs.Phrase.{Phrase};
ghost use Rattle.ps_declared.specs.ps_typing.Names.{Names};
ghost use Rattle.ps_checked.specs.inside.Parts.{want_of, triple_first, triple_rest, check_double};

use crate::double::Double;
use crate::wanted::Wanted;
use ps_base::line::Line;
use ps_base::ty::Ty;
use ps_program::form::Tree;

/// A form of which three parts are left to be checked, one after the other.
#[derive(Clone, Copy)]
pub enum Triple {
    IfElse,
    /// A loop with its test between two clauses.
    Repeat,
    /// The bounds of a vector, and its elements.
    Fill(Line),
}

impl Triple {
    /// The type that the first part is to have.
    pub fn first(self) -> Wanted
        ensures { want_of result ≡ triple_first self }
    {
        match self {
            Triple::IfElse => Wanted::This(Ty::Bool),
            Triple::Repeat => Wanted::This(Ty::Void),
            Triple::Fill(_) => Wanted::This(Ty::Int),
        }
    }

    /// The form after its first part.
    pub fn rest(self, first: Tree) -> Double
        ensures { (names : Names) (a : Phrase) (b : Phrase) → check_double result names a b ≡ triple_rest self (node_of first) names a b }
    {
        match self {
            Triple::IfElse => Double::IfElse { c: first },
            Triple::Repeat => Double::RepeatDo { a: first },
            Triple::Fill(line) => Double::Fill { l: first, line },
        }
    }
}
