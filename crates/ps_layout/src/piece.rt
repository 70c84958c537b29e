ghost use Rattle.std.specs.Prelude.{◌≡◌, ◌+◌, IfOk};
ghost use Rattle.ps_layout.specs.Layout.{left_of as left_tightness};
ghost use Rattle.ps_layout.specs.Waiting.{tightness_of};

use ps_base::operator::Operator;
use ps_base::ty::Ty;
use ps_tree::rough::{Group, Named, Rough, RoughArm, RoughForm, RoughItem};
use std::alloc::AllocError;

/// What stands before a word, a mark or another lexeme: nothing, one blank, or a newline and so many
/// blanks.
#[derive(Clone, Copy)]
pub enum Gap {
    Nothing,
    Blank,
    Newline(usize),
}

/// What stands after a clause, where it could be read as part of it: `do` after a `repeat` that
/// has none, `,` after a `write`, and `:` after one whose last item has no width.
#[derive(Clone, Copy)]
pub enum Behind {
    Other,
    BeforeDo,
    BeforeComma,
    BeforeColon,
}

/// How tight a form binds, loosest first. A form that binds looser than its place asks for stands in
/// brackets.
#[derive(Clone, Copy)]
pub enum Tightness {
    Loosest,
    Disjunction,
    Conjunction,
    Negation,
    Comparison,
    Sum,
    Product,
    Signed,
    Application,
    Primary,
}

impl Tightness {
    /// How tight the left operand of an operator binds: as tight as the operator.
    pub fn of_left(op: Operator) -> Tightness
        ensures { tightness_of result ≡ left_tightness op }
    {
        match op {
            Operator::Add | Operator::Sub => Tightness::Sum,
            Operator::Mul | Operator::Div | Operator::Rem => Tightness::Product,
        }
    }
}

/// Where something is printed: how far the lines inside it stand to the right, what stands after
/// it, and the gap before it.
#[derive(Clone, Copy)]
pub struct Spot {
    pub indent: usize,
    pub behind: Behind,
    pub gap: Gap,
}

impl Spot {
    /// That of an item on a line of its own.
    pub fn on_line(indent: usize) -> Spot
        ensures { result ≡ record { indent = indent; behind = Behind.Other; gap = Gap.Newline indent } }
    {
        Spot {
            indent,
            behind: Behind::Other,
            gap: Gap::Newline(indent),
        }
    }

    /// That of what stands inside, after a blank and before this.
    pub fn before(self, behind: Behind) -> Spot
        ensures { result ≡ record { indent = self.indent; behind = behind; gap = Gap.Blank } }
    {
        Spot {
            behind,
            gap: Gap::Blank,
            ..self
        }
    }

    /// That of what stands at the end, after a blank.
    pub fn last(self) -> Spot
        ensures { result ≡ record { indent = self.indent; behind = self.behind; gap = Gap.Blank } }
    {
        self.before(self.behind)
    }

    /// That of what stands inside, right after a bracket or a mark.
    pub fn glued(self) -> Spot
        ensures { result ≡ record { indent = self.indent; behind = Behind.Other; gap = Gap.Nothing } }
    {
        Spot {
            behind: Behind::Other,
            gap: Gap::Nothing,
            ..self
        }
    }
}

/// A part of a text that is still to be printed. Where it holds a list, these are the items that
/// are left; a number is how far the lines inside it stand to the right.
#[derive(Clone, Copy)]
pub enum Piece<'a> {
    /// A reserved word, by its place in `word::SPELLINGS`.
    Word(Gap, u8),
    /// A mark, by its place in `mark::SPELLINGS`.
    Mark(Gap, u8),
    Name(Gap, &'a [u8]),
    /// An int by its magnitude.
    Int(Gap, u32),
    Text(Gap, &'a [u8]),
    /// A form without brackets round it.
    Form(Spot, &'a RoughForm),
    /// A clause, in brackets where it would take what stands after it.
    Clause(Spot, &'a Rough),
    /// An operand, in brackets where it binds looser than this.
    Operand(Tightness, usize, Gap, &'a Rough),
    /// Items of a block or a program, each on a line of its own.
    Lines(usize, &'a [Rough]),
    /// Clauses with commas between them; the spot is that of the first, but after the last.
    Clauses(Spot, &'a [Rough]),
    /// Clauses after others, each after a comma.
    MoreClauses(usize, Behind, &'a [Rough]),
    /// Arms of a `case`.
    Arms(usize, &'a [RoughArm]),
    Arm(usize, &'a RoughArm),
    /// Items of a `write`.
    Items(usize, Behind, &'a [RoughItem]),
    /// Items after others, each after a comma.
    MoreItems(usize, Behind, &'a [RoughItem]),
    Item(usize, Behind, &'a RoughItem),
    Type(Gap, &'a Ty),
    /// The types of parameters.
    Types(&'a [Ty]),
    /// Types after others, each after a comma.
    MoreTypes(&'a [Ty]),
    /// The type of a result, after its arrow.
    Gives(&'a Ty),
    /// The parameters of a procedure, or the fields of a structure.
    Groups(&'a [Group]),
    /// Names that share this type with one before them, and groups after them, each after a
    /// semicolon.
    MoreGroups(&'a Ty, &'a [Named], &'a [Group]),
    /// A parameter or a field, with its type.
    Named(Gap, &'a Ty, &'a Named),
    /// A procedure from its bracket to its body: its parameters, and the type of its result.
    Heading(&'a [Group], &'a Ty),
}

/// The indentation of what stands inside. One that is too large for a number is too large for any
/// memory.
pub fn deeper(indent: usize) -> Result<usize, AllocError>
    ensures { IfOk result (λ inner. inner ≡ indent + 2) }
{
    indent.checked_add(2).ok_or(AllocError)
}
