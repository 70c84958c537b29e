ghost use Rattle.std.specs.Prelude.{◌≡◌, ◌+◌, ◌≤◌, ℕ, true, Option, List, length, IfOk};
ghost use Rattle.ps_base.specs.TyView.{TyView};
ghost use Rattle.ps_program.specs.Node.{Node, Nodes, Param, body as body_with};
ghost use Rattle.ps_program.specs.Node as node;
ghost use Rattle.ps_program.specs.NodeView.{node_of, nodes_in, body_of};
ghost use Rattle.ps_program.specs.inside.Listed.{parts_all};
ghost use Rattle.ps_program.specs.inside.PartsView.{arms_in, further_in};
ghost use Rattle.ps_slots.specs.Complexity.{fault_of, IsFirstComplex};
ghost use Rattle.ps_slots.specs.inside.Sizes.{size, size_of, size_part, size_parts, size_items, size_arms, size_alone, as_part, waiting, behind as behind_of, join, nothing};

use crate::complex::Complex;
use ps_base::line::Line;
use ps_program::body::Body;
use ps_program::form::{Arm, Tree, TreeForm};
use ps_program::parts::{Further, Parts};
use std::alloc::AllocError;

/// The most slots of a body.
const MOST_SLOTS: u64 = 512;

/// How large a clause is: how many locals it takes, how deep the stacks grow over it, whether a procedure literal stands in it,
/// and the first body in it that is too complex.
#[derive(Clone, Copy)]
pub struct Sizes {
    pub locals: u64,
    pub depth: u64,
    pub literal: bool,
    pub complex: Option<Complex>,
}

/// What waits while a part of a clause is evaluated: for an operand those before it, for a label two values, for a branch
/// none.
#[derive(Clone, Copy)]
pub enum Kind {
    Operands,
    Labels,
    Branches,
}

impl Sizes {
    /// Of no clause at all.
    pub fn none() -> Sizes
        ensures { size_of result ≡ nothing }
    {
        Sizes {
            locals: 0,
            depth: 0,
            literal: false,
            complex: None,
        }
    }

    /// Of these items of a sequence and, after them, one more. The fault is that a count is beyond an `u64`.
    pub fn and_item(self, item: &Tree) -> Result<Sizes, AllocError>
        ensures { IfOk result (λ all. size_of all ≡ join (size_of self) (size (node_of item.now))) }
    {
        self.then(sizes_of(item)?)
    }

    /// Of the sequence that has items of these sizes.
    pub fn in_sequence(self) -> Sizes
        ensures { (scope : Option (List ℕ)) (items : Nodes) → size_of self ≡ size_items items → size_of result ≡ size (node.Block scope items) }
    {
        Sizes {
            depth: self.depth.max(1),
            ..self
        }
    }

    /// The first body with too many slots, of one with so many parameters whose clause has these sizes, and of all in it. The
    /// fault is that a count is beyond an `u64`.
    pub fn first_complex(self, params: u64, line: Line) -> Result<Option<Complex>, AllocError>
        ensures { IfOk result (λ found. (of : List Param) (gives : TyView) (tree : Node) (scope : Option (List ℕ)) → length of ≡ params → size_of self ≡ size tree → IsFirstComplex (body_with of gives tree scope line) found) }
    {
        let count = sum(params, sum(self.locals, self.depth)?)?;
        if count > MOST_SLOTS {
            return Ok(Some(Complex { line, count }));
        }
        Ok(self.complex)
    }

    /// Of these and, after them in the text, others.
    fn then(self, other: Sizes) -> Result<Sizes, AllocError>
        ensures { IfOk result (λ both. size_of both ≡ join (size_of self) (size_of other)) }
    {
        Ok(Sizes {
            locals: sum(self.locals, other.locals)?,
            depth: self.depth.max(other.depth),
            literal: self.literal || other.literal,
            complex: match self.complex {
                Some(complex) => Some(complex),
                None => other.complex,
            },
        })
    }
}

// The first body with too many slots, of this and all in it.
#[cycle(sizes)]
fn complex_of(body: &Body) -> Result<Option<Complex>, AllocError>
    ensures { IfOk result (λ found. IsFirstComplex (body_of body.now) found) }
{
    let sizes = sizes_of(&body.tree)?;
    sizes.first_complex(body.params.len() as u64, body.line)
}

/// The sizes of a clause. The fault is that a count is beyond an `u64`.
// The first parts are gone into by the loop, since they stand inside one another as far as the text is long.
#[cycle(sizes)]
pub fn sizes_of(tree: &Tree) -> Result<Sizes, AllocError>
    ensures { IfOk result (λ made. size_of made ≡ size (node_of tree.now)) }
{
    let mut rest = tree;
    let mut sizes = Sizes::none();
    loop {
        match rest.parts() {
            Parts::Literal(body) => return literal(complex_of(body)?).then(sizes),
            Parts::Clauses {
                first: Some(first),
                further,
            } => {
                sizes = own(rest).then(sizes_of_further(1, further)?)?.then(sizes)?;
                rest = first;
            }
            Parts::Clauses {
                first: None,
                further,
            } => return own(rest).then(sizes_of_further(0, further)?)?.then(sizes),
        }
    }
}

// Of the parts after so many.
#[cycle(sizes)]
fn sizes_of_further(before: u64, further: Further) -> Result<Sizes, AllocError>
    requires { before ≤ 1 }
    ensures { IfOk result (λ made. size_of made ≡ size_parts before (further_in further.entry)) }
{
    let none = Sizes::none();
    match further {
        Further::Nothing => Ok(none),
        Further::One(b) => then_part(none, Kind::Operands, before, b),
        Further::Two(b, c) => {
            let sizes = then_part(none, Kind::Operands, before, b)?;
            then_part(sizes, Kind::Operands, before + 1, c)
        }
        Further::Three(b, c, d) => {
            let sizes = then_part(none, Kind::Operands, before, b)?;
            let sizes = then_part(sizes, Kind::Operands, before + 1, c)?;
            then_part(sizes, Kind::Operands, before + 2, d)
        }
        Further::OneBranch(a) => then_part(none, Kind::Branches, before, a),
        Further::TwoBranches(a, b) => {
            let sizes = then_part(none, Kind::Branches, before, a)?;
            then_part(sizes, Kind::Branches, before + 1, b)
        }
        Further::Branches(items) => then_all(none, Kind::Branches, before, items),
        Further::Operands(items) => then_all(none, Kind::Operands, before, items),
        Further::Arms(arms, d) => {
            let sizes = sizes_of_arms(arms)?;
            then_part(sizes, Kind::Branches, before, d)
        }
    }
}

#[cycle(sizes)]
fn sizes_of_arms(arms: &[Arm]) -> Result<Sizes, AllocError>
    ensures { IfOk result (λ made. size_of made ≡ size_arms (arms_in arms.now)) }
{
    let mut sizes = Sizes::none();
    for arm in arms {
        sizes = then_all(sizes, Kind::Labels, 0, arm.labels.as_slice())?;
        sizes = then_part(sizes, Kind::Branches, 0, &arm.a)?;
    }
    Ok(sizes)
}

// Of these and, after them, the trees of a list.
#[cycle(sizes)]
fn then_all(sizes: Sizes, kind: Kind, before: u64, items: &[Tree]) -> Result<Sizes, AllocError>
    ensures { IfOk result (λ made. size_of made ≡ join (size_of sizes) (size_parts before (parts_all (as_part kind) (nodes_in items.now)))) }
{
    let mut sizes = sizes;
    let mut before = before;
    for item in items {
        sizes = then_part(sizes, kind, before, item)?;
        before = sum(before, 1)?;
    }
    Ok(sizes)
}

// Of these and, after them, a part.
#[cycle(sizes)]
fn then_part(sizes: Sizes, kind: Kind, before: u64, part: &Tree) -> Result<Sizes, AllocError>
    ensures { IfOk result (λ made. size_of made ≡ join (size_of sizes) (size_part before (as_part kind (node_of part.now)))) }
{
    let part = sizes_of(part)?;
    sizes.then(behind(kind, before, part)?)
}

// Of a part after what waits there.
fn behind(kind: Kind, before: u64, part: Sizes) -> Result<Sizes, AllocError>
    ensures { IfOk result (λ made. size_of made ≡ behind_of (waiting kind before) (size_of part)) }
{
    let waiting = match kind {
        Kind::Operands => before,
        Kind::Labels => 2,
        Kind::Branches => 0,
    };
    Ok(Sizes {
        locals: part.locals,
        depth: sum(waiting, part.depth)?,
        literal: part.literal,
        complex: part.complex,
    })
}

// Of a clause by itself, which is no literal.
fn own(tree: &Tree) -> Sizes
    ensures { size_of result ≡ size_alone (node_of tree.now) }
{
    let locals = match &*tree.form {
        TreeForm::Let { .. } => 1,
        TreeForm::For(_) => 4,
        TreeForm::Scan { .. } => 6,
        _ => 0,
    };
    Sizes {
        locals,
        depth: 1,
        literal: false,
        complex: None,
    }
}

// Of a literal with this body in it: one word for the value.
fn literal(complex: Option<Complex>) -> Sizes
    ensures { size_of result ≡ record { locals = 0; depth = 1; literal = true; complex = fault_of complex } }
{
    Sizes {
        locals: 0,
        depth: 1,
        literal: true,
        complex,
    }
}

// The sum of two numbers, which doesn't grow beyond an `u64` while there is memory for what is counted.
fn sum(a: u64, b: u64) -> Result<u64, AllocError>
    ensures { IfOk result (λ made. made ≡ a + b) }
{
    match a.checked_add(b) {
        Some(sum) => Ok(sum),
        None => Err(AllocError),
    }
}
