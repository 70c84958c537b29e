ghost use Rattle.std.specs.Prelude.{◌≡◌};

use ps_base::bytes::Bytes;
use ps_base::line::Line;
use ps_base::list::List;
use ps_base::operator::{Operator, Relation};
use ps_base::ty::Ty;

/// A clause as the grammar reads it, before its names and types are known: its form, and the line
/// on which a fault of it is reported (`docs/language.md`).
#[cycle(rough)]
pub struct Rough {
    pub form: Box<RoughForm>,
    pub line: Line,
}

/// The forms of a clause. There is none for brackets round a clause, nor for an empty item.
/// A tree has a node for each operator and each operand of a text, and a node is as large as the
/// largest form: so none has more than 48 bytes, and what is rare stands in a box of its own.
#[cycle(rough)]
pub enum RoughForm {
    Sequence {
        items: List<Rough>,
    },
    Let {
        name: Box<Named>,
        variable: bool,
        e: Rough,
    },
    Structure {
        name: Box<Named>,
        fields: List<Group>,
    },
    IfDo {
        c: Rough,
        a: Rough,
    },
    IfElse {
        c: Rough,
        a: Rough,
        b: Rough,
    },
    While {
        c: Rough,
        a: Rough,
    },
    /// `a` until `c` is false; `b` between the turns.
    Repeat {
        a: Rough,
        c: Rough,
        b: Option<Box<Rough>>,
    },
    /// `s` for the name over the range.
    For {
        name: Box<Named>,
        range: Box<RoughRange>,
        s: Rough,
    },
    /// The clause of the first arm with a label equal to `e`, else `d`.
    Case {
        e: Rough,
        arms: Box<List<RoughArm>>,
        d: Rough,
    },
    Write {
        items: List<RoughItem>,
    },
    Abort,
    Proc {
        params: List<Group>,
        gives: Box<Ty>,
        s: Rough,
    },
    /// A vector with bounds `l` and `u`, filled with `e`.
    Vector {
        l: Rough,
        u: Rough,
        e: Rough,
    },
    Assign {
        x: Rough,
        e: Rough,
    },
    Or {
        a: Rough,
        b: Rough,
    },
    And {
        a: Rough,
        b: Rough,
    },
    Not {
        e: Rough,
    },
    Compare {
        op: Relation,
        a: Rough,
        b: Rough,
    },
    /// Whether `e` is an object of the class, or isn't.
    Is {
        e: Rough,
        class: Box<Named>,
        negated: bool,
    },
    Join {
        a: Rough,
        b: Rough,
    },
    Arith {
        op: Operator,
        a: Rough,
        b: Rough,
    },
    Plus {
        e: Rough,
    },
    Neg {
        e: Rough,
    },
    /// `f` with arguments in round brackets: a call, an element, a field or a new structure.
    Apply {
        f: Rough,
        args: List<Rough>,
    },
    /// The part of the string `s` from place `i`, `n` bytes long.
    Part {
        s: Rough,
        i: Rough,
        n: Rough,
    },
    Name(Bytes),
    Int(i32),
    Text(Bytes),
    Flag(bool),
    Nil,
    /// The lower or the upper bound of the vector `e`.
    Bound {
        upper: bool,
        e: Rough,
    },
    /// A vector with lower bound `l` and these elements of the type.
    Elems {
        l: Rough,
        ty: Box<Ty>,
        items: List<Rough>,
    },
}

/// The values that a `for` goes over: from `a` to `b`, by `c` where a step is given.
#[cycle(rough)]
pub struct RoughRange {
    pub a: Rough,
    pub b: Rough,
    pub c: Option<Rough>,
}

/// An arm of a `case`: the labels that it is for, and its clause.
#[cycle(rough)]
pub struct RoughArm {
    pub labels: List<Rough>,
    pub a: Rough,
}

/// An item of a `write`, and how wide it is written, where that is said; the line is that of the
/// colon before the width, or of the item where none stands.
#[cycle(rough)]
pub struct RoughItem {
    pub e: Rough,
    pub w: Option<Rough>,
    pub line: Line,
}

/// A name that is declared, with the line of its token.
pub struct Named {
    pub name: Bytes,
    pub line: Line,
}

/// The parameters of a procedure or the fields of a structure that share a type that is written
/// once: the first of them, and those after it.
pub struct Group {
    pub ty: Ty,
    pub first: Named,
    pub more: List<Named>,
}

impl Rough {
    /// The form of a clause that is let go.
    fn into_form(self) -> RoughForm
        ensures { result ≡ self.form.value }
    {
        let Rough { form, line: _ } = self;
        Box::into_inner(form)
    }
}

impl Named {
    /// The name, and the line of its token.
    pub(crate) fn into_parts(self) -> (Bytes, Line)
        ensures { (result.0 ≡ self.name) × (result.1 ≡ self.line) }
    {
        let Named { name, line } = self;
        (name, line)
    }
}

// Each is let go by a function of its own, written out, so that who lets one go calls this and no
// more.

impl Drop for Rough {
    #[cycle(rough)]
    fn drop(self) {
        let Rough { form: _, line: _ } = self;
    }
}

impl Drop for RoughRange {
    #[cycle(rough)]
    fn drop(self) {
        let RoughRange { a: _, b: _, c: _ } = self;
    }
}

impl Drop for RoughArm {
    #[cycle(rough)]
    fn drop(self) {
        let RoughArm { labels: _, a: _ } = self;
    }
}

impl Drop for RoughItem {
    #[cycle(rough)]
    fn drop(self) {
        let RoughItem {
            e: _,
            w: _,
            line: _,
        } = self;
    }
}

impl Drop for Named {
    fn drop(self) {
        let Named { name: _, line: _ } = self;
    }
}

impl Drop for Group {
    fn drop(self) {
        let Group {
            ty: _,
            first: _,
            more: _,
        } = self;
    }
}

/// Lets go of a form. A chain of operators or of applications is as long as its text, so the left
/// operands are let go one after the other and not inside one another.
impl Drop for RoughForm {
    #[cycle(rough)]
    fn drop(mut self) {
        loop {
            match self {
                RoughForm::Or { a, b: _ } => self = a.into_form(),
                RoughForm::And { a, b: _ } => self = a.into_form(),
                RoughForm::Join { a, b: _ } => self = a.into_form(),
                RoughForm::Arith { op: _, a, b: _ } => self = a.into_form(),
                RoughForm::Apply { f, args: _ } => self = f.into_form(),
                RoughForm::Part { s, i: _, n: _ } => self = s.into_form(),
                RoughForm::Sequence { items: _ } => return,
                RoughForm::Let {
                    name: _,
                    variable: _,
                    e: _,
                } => return,
                RoughForm::Structure { name: _, fields: _ } => return,
                RoughForm::IfDo { c: _, a: _ } => return,
                RoughForm::IfElse { c: _, a: _, b: _ } => return,
                RoughForm::While { c: _, a: _ } => return,
                RoughForm::Repeat { a: _, c: _, b: _ } => return,
                RoughForm::For {
                    name: _,
                    range: _,
                    s: _,
                } => return,
                RoughForm::Case {
                    e: _,
                    arms: _,
                    d: _,
                } => return,
                RoughForm::Write { items: _ } => return,
                RoughForm::Abort => return,
                RoughForm::Proc {
                    params: _,
                    gives: _,
                    s: _,
                } => return,
                RoughForm::Vector { l: _, u: _, e: _ } => return,
                RoughForm::Assign { x: _, e: _ } => return,
                RoughForm::Not { e: _ } => return,
                RoughForm::Compare { op: _, a: _, b: _ } => return,
                RoughForm::Is {
                    e: _,
                    class: _,
                    negated: _,
                } => return,
                RoughForm::Plus { e: _ } => return,
                RoughForm::Neg { e: _ } => return,
                RoughForm::Name(_) => return,
                RoughForm::Int(_) => return,
                RoughForm::Text(_) => return,
                RoughForm::Flag(_) => return,
                RoughForm::Nil => return,
                RoughForm::Bound { upper: _, e: _ } => return,
                RoughForm::Elems {
                    l: _,
                    ty: _,
                    items: _,
                } => return,
            }
        }
    }
}
