ghost use Rattle.std.specs.Prelude.{◌≡◌, ◌+◌};
ghost use Rattle.ps_tree.specs.Phrase.{phrase_of};
ghost use Rattle.ps_tree.specs.PhraseLists.{phrases_in};
ghost use Rattle.ps_program.specs.Node.{Node};
ghost use Rattle.ps_declared.specs.ps_typing.Checking.{Outcome};
ghost use Rattle.ps_checked.specs.inside.Weights.{weight, weight_all, weight_link};
ghost use Rattle.ps_base.specs.TyView.{ty_view};
ghost use Rattle.ps_program.specs.NodeView.{node_of};
ghost use Rattle.ps_declared.specs.inside.Answers.{IsMade};
ghost use Rattle.ps_checked.specs.inside.Links.{joint_ty, joint_node, joined, applied_to, parted, check_link};

use ps_base::line::Line;
use ps_base::operator::Operator;
use ps_base::ty::Ty;
use ps_declared::clause::Clause;
use ps_declared::fault::CheckFault;
use ps_program::form::{Tree, TreeForm};
use ps_tree::rough::Rough;
use std::alloc::Global;

/// An operator of a chain, and the line of those that can fail.
#[derive(Clone, Copy)]
pub enum Joint {
    Or,
    And,
    Join(Line),
    Arith(Operator, Line),
}

impl Joint {
    /// The type of both operands, and of what the operator gives.
    pub fn ty(self) -> Ty
        ensures { ty_view result ≡ joint_ty self }
    {
        match self {
            Joint::Or => Ty::Bool,
            Joint::And => Ty::Bool,
            Joint::Join(_) => Ty::Str,
            Joint::Arith(_, _) => Ty::Int,
        }
    }

    /// The clause of the operator with two operands of its type. The only fault is `Memory`.
    pub fn clause(self, alloc: Global, a: Tree, b: Tree) -> Result<Clause, CheckFault>
        ensures { IsMade (joint_node self (node_of a) (node_of b)) (joint_ty self) result }
    {
        match self {
            Joint::Or => Clause::new(alloc, TreeForm::Or { a, b }, Ty::Bool),
            Joint::And => Clause::new(alloc, TreeForm::And { a, b }, Ty::Bool),
            Joint::Join(line) => Clause::new(alloc, TreeForm::Join { a, b, line }, Ty::Str),
            Joint::Arith(op, line) => {
                Clause::new(alloc, TreeForm::Arith { op, a, b, line }, Ty::Int)
            }
        }
    }
}

/// A link of a chain: what comes after a left operand.
#[derive(Clone, Copy)]
pub enum Link<'a> {
    /// An operator and its right operand; the left one begins on the line.
    Operator {
        joint: Joint,
        left_line: Line,
        right: &'a Rough,
    },
    /// An application of what is no name, to these.
    Apply {
        line: Line,
        args: &'a [Rough],
    },
    /// A part of a string, from `i`, `n` bytes long; the string begins on the line.
    Part {
        line: Line,
        left_line: Line,
        i: &'a Rough,
        n: &'a Rough,
    },
}

impl<'a> Link<'a> {
    /// The link of an operator between two operands.
    pub fn new(joint: Joint, left: &Rough, right: &'a Rough) -> Link<'a>
        ensures link { (o : Outcome Node) → check_link result o ≡ joined joint left.now.line (phrase_of right.now) o }
        ensures weight { weight_link result ≡ weight (phrase_of right.now) }
    {
        Link::Operator {
            joint,
            left_line: left.line,
            right,
        }
    }

    /// The link of an application on this line.
    pub fn apply(line: Line, args: &'a [Rough]) -> Link<'a>
        ensures link { (o : Outcome Node) → check_link result o ≡ applied_to line (phrases_in args.now) o }
        ensures weight { weight_link result ≡ weight_all (phrases_in args.now) }
    {
        Link::Apply { line, args }
    }

    /// The link of a part of a string.
    pub fn part(line: Line, left: &Rough, i: &'a Rough, n: &'a Rough) -> Link<'a>
        ensures link { (o : Outcome Node) → check_link result o ≡ parted line left.now.line (phrase_of i.now) (phrase_of n.now) o }
        ensures weight { weight_link result ≡ weight (phrase_of i.now) + weight (phrase_of n.now) }
    {
        Link::Part {
            line,
            left_line: left.line,
            i,
            n,
        }
    }
}
