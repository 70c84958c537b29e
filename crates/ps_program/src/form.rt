ghost use Rattle.std.specs.Prelude.{◌≡◌, option_map, IfOk};
ghost use Rattle.ps_program.specs.Assigning.{assignment};
ghost use Rattle.ps_program.specs.NodeView.{node_of_form, node_of};

use crate::body::Body;
use crate::place::Place;
use ps_base::bytes::Bytes;
use ps_base::line::Line;
use ps_base::list::List;
use ps_base::operator::{Operator, Relation};
use ps_base::ty::Ty;
use std::alloc::{AllocError, Global};
use std::rc::Rc;

/// A typed clause in which each name is resolved to its place (`docs/meaning.md`).
#[cycle(tree)]
pub struct Tree {
    pub form: Box<TreeForm>,
}

/// What a typed clause is made of. A tree has one for each operator and each operand of a text, and all are as large as the
/// largest: so none has more than 48 bytes of fields, for which the types of `Case` and `Elems` are in boxes of their own and
/// the small fields stand side by side. Types and class texts are shared, since a text may mention one very often.
#[cycle(tree)]
pub enum TreeForm {
    Int(i32),
    Flag(bool),
    Text(Bytes),
    Nil,
    Name {
        place: Place,
        ty: Ty,
    },
    /// Assigns to a variable.
    SetName {
        place: Place,
        ty: Ty,
        e: Tree,
    },
    /// Gives a declared name its initial value.
    Let {
        place: Place,
        ty: Ty,
        e: Tree,
    },
    /// The declaration of a class.
    Class,
    /// Nothing at all.
    Empty,
    /// A sequence, with the text of its scope where procedures inside keep names of it.
    Block {
        scope: Option<Box<Bytes>>,
        items: List<Tree>,
    },
    IfDo {
        c: Tree,
        a: Tree,
    },
    IfElse {
        c: Tree,
        a: Tree,
        b: Tree,
    },
    While {
        c: Tree,
        a: Tree,
    },
    /// `a` until `c` is false; `b` between the turns, `Empty` where none stands.
    Repeat {
        a: Tree,
        c: Tree,
        b: Tree,
    },
    For(Box<Loop>),
    /// The clause of the first arm with a label equal to `e`, which is of the type; else `d`.
    Case {
        e: Tree,
        arms: List<Arm>,
        d: Tree,
        ty: Box<Ty>,
    },
    And {
        a: Tree,
        b: Tree,
    },
    Or {
        a: Tree,
        b: Tree,
    },
    Not(Tree),
    Neg {
        e: Tree,
        line: Line,
    },
    Plus(Tree),
    Arith {
        op: Operator,
        a: Tree,
        b: Tree,
        line: Line,
    },
    /// Compares two values of the type.
    Compare {
        op: Relation,
        ty: Ty,
        a: Tree,
        b: Tree,
    },
    /// Whether `e` is an object of the class.
    Is {
        e: Tree,
        class: Rc<Bytes>,
    },
    Join {
        a: Tree,
        b: Tree,
        line: Line,
    },
    /// The part of the string `a` from place `i` on, `n` bytes long.
    Part {
        a: Tree,
        i: Tree,
        n: Tree,
        line: Line,
    },
    /// A new structure of the class, with a value for each of its fields.
    Make {
        class: Rc<Bytes>,
        args: List<Tree>,
    },
    /// The field of the class, counted from 0, which is of the type.
    Field {
        e: Tree,
        class: Rc<Bytes>,
        index: u32,
        ty: Ty,
        line: Line,
    },
    SetField {
        p: Tree,
        class: Rc<Bytes>,
        ty: Ty,
        e: Tree,
        index: u32,
        line: Line,
    },
    /// A vector of the type, from `l` to `u`, filled with `e`.
    Fill {
        l: Tree,
        u: Tree,
        e: Tree,
        ty: Ty,
        line: Line,
    },
    /// A vector of the type, from `l` on, with these elements.
    Elems {
        l: Tree,
        items: List<Tree>,
        ty: Box<Ty>,
        line: Line,
    },
    /// The element of `v` at `i`, which is of the type.
    Element {
        v: Tree,
        i: Tree,
        ty: Ty,
        line: Line,
    },
    SetElement {
        v: Tree,
        i: Tree,
        e: Tree,
        ty: Ty,
        line: Line,
    },
    /// The lower or the upper bound of a vector.
    Bound {
        v: Tree,
        upper: bool,
    },
    /// A procedure literal.
    Proc(Box<Body>),
    Call {
        f: Tree,
        args: List<Tree>,
        line: Line,
    },
    /// A call of a library procedure, by its code.
    Lib {
        code: u8,
        args: List<Tree>,
        line: Line,
    },
    /// A scan of the table `a`, with string keys or with int keys, by the procedure `f`; `q` and `s` are the first of its
    /// three locals on each stack.
    Scan {
        text: bool,
        a: Tree,
        f: Tree,
        q: u32,
        s: u32,
        line: Line,
    },
    /// Writes one item of the type; `w` is its width, `Empty` where not `wide`.
    Write {
        e: Tree,
        w: Tree,
        wide: bool,
        ty: Ty,
        line: Line,
    },
    Abort(Line),
}

/// A loop over the ints from `a` to `b` by `c`, which stand in three number locals from `slot` on: each is the control while
/// `s` is done, in the block that declares it.
#[cycle(tree)]
#[derive(Drop)]
pub struct Loop {
    pub slot: u32,
    pub a: Tree,
    pub b: Tree,
    pub c: Tree,
    pub scope: Option<Bytes>,
    pub control: Place,
    pub s: Tree,
    pub line: Line,
}

/// An arm of a `case`: the labels that it is for, and its clause.
#[cycle(tree)]
#[derive(Drop)]
pub struct Arm {
    pub labels: List<Tree>,
    pub a: Tree,
}

impl Tree {
    /// The clause of this form, in a box of its own.
    pub fn new(alloc: Global, form: TreeForm) -> Result<Tree, AllocError>
        ensures { IfOk result (λ made. node_of made ≡ node_of_form form) }
    {
        Ok(Tree {
            form: Box::new(alloc, form)?,
        })
    }

    /// What the clause is made of, out of its box.
    pub fn into_form(self) -> TreeForm
        ensures { result ≡ self.form.value }
    {
        let Tree { form } = self;
        Box::into_inner(form)
    }
}

impl TreeForm {
    /// The assignment of a value to what the clause is: a variable, an element or a field. There is none to anything else, and
    /// then both are let go.
    pub fn assigned(self, value: Tree) -> Option<TreeForm>
        ensures { option_map node_of_form result ≡ assignment (node_of_form self) (node_of value) }
    {
        match self {
            TreeForm::Name { place, ty } => Some(TreeForm::SetName {
                place,
                ty,
                e: value,
            }),
            TreeForm::Element { v, i, ty, line } => Some(TreeForm::SetElement {
                v,
                i,
                e: value,
                ty,
                line,
            }),
            TreeForm::Field {
                e,
                class,
                index,
                ty,
                line,
            } => Some(TreeForm::SetField {
                p: e,
                class,
                ty,
                e: value,
                index,
                line,
            }),
            _ => None,
        }
    }
}

/// Lets go of a tree.
impl Drop for Tree {
    #[cycle(tree)]
    fn drop(self) {
        let Tree { form: _ } = self;
    }
}

/// Lets go of a tree. A chain of operators, of applications, elements or fields is as long as its text, so the left operands
/// are let go one after the other and not inside one another.
impl Drop for TreeForm {
    #[cycle(tree)]
    fn drop(mut self) {
        loop {
            match self {
                TreeForm::Int(_) => return,
                TreeForm::Flag(_) => return,
                TreeForm::Text(_) => return,
                TreeForm::Nil => return,
                TreeForm::Name { place: _, ty: _ } => return,
                TreeForm::SetName {
                    place: _,
                    ty: _,
                    e: _,
                } => return,
                TreeForm::Let {
                    place: _,
                    ty: _,
                    e: _,
                } => return,
                TreeForm::Class => return,
                TreeForm::Empty => return,
                TreeForm::Block { scope: _, items: _ } => return,
                TreeForm::IfDo { c: _, a: _ } => return,
                TreeForm::IfElse { c: _, a: _, b: _ } => return,
                TreeForm::While { c: _, a: _ } => return,
                TreeForm::Repeat { a: _, c: _, b: _ } => return,
                TreeForm::For(_) => return,
                TreeForm::Case {
                    e: _,
                    arms: _,
                    d: _,
                    ty: _,
                } => return,
                TreeForm::And { a, b: _ } => self = a.into_form(),
                TreeForm::Or { a, b: _ } => self = a.into_form(),
                TreeForm::Not(_) => return,
                TreeForm::Neg { e: _, line: _ } => return,
                TreeForm::Plus(_) => return,
                TreeForm::Arith {
                    op: _,
                    a,
                    b: _,
                    line: _,
                } => self = a.into_form(),
                TreeForm::Compare {
                    op: _,
                    ty: _,
                    a: _,
                    b: _,
                } => return,
                TreeForm::Is { e: _, class: _ } => return,
                TreeForm::Join { a, b: _, line: _ } => self = a.into_form(),
                TreeForm::Part {
                    a,
                    i: _,
                    n: _,
                    line: _,
                } => self = a.into_form(),
                TreeForm::Make { class: _, args: _ } => return,
                TreeForm::Field {
                    e,
                    class: _,
                    index: _,
                    ty: _,
                    line: _,
                } => self = e.into_form(),
                TreeForm::SetField {
                    p: _,
                    class: _,
                    ty: _,
                    e: _,
                    index: _,
                    line: _,
                } => return,
                TreeForm::Fill {
                    l: _,
                    u: _,
                    e: _,
                    ty: _,
                    line: _,
                } => return,
                TreeForm::Elems {
                    l: _,
                    items: _,
                    ty: _,
                    line: _,
                } => return,
                TreeForm::Element {
                    v,
                    i: _,
                    ty: _,
                    line: _,
                } => self = v.into_form(),
                TreeForm::SetElement {
                    v: _,
                    i: _,
                    e: _,
                    ty: _,
                    line: _,
                } => return,
                TreeForm::Bound { v: _, upper: _ } => return,
                TreeForm::Proc(_) => return,
                TreeForm::Call {
                    f,
                    args: _,
                    line: _,
                } => self = f.into_form(),
                TreeForm::Lib {
                    code: _,
                    args: _,
                    line: _,
                } => return,
                TreeForm::Scan {
                    text: _,
                    a: _,
                    f: _,
                    q: _,
                    s: _,
                    line: _,
                } => return,
                TreeForm::Write {
                    e: _,
                    w: _,
                    wide: _,
                    ty: _,
                    line: _,
                } => return,
                TreeForm::Abort(_) => return,
            }
        }
    }
}
