use crate::form::Tree;
use crate::place::Place;
use ps_base::bytes::Bytes;
use ps_base::line::Line;
use ps_base::list::List;
use ps_base::ty::Ty;

/// A typed program.
#[derive(Drop)]
pub struct Program {
    pub body: Body,
}

/// The body of a program or of a procedure: its parameters, the type of what it gives, its clause, the text of its scope
/// where procedures inside keep parameters of it, and its line.
#[cycle(tree)]
#[derive(Drop)]
pub struct Body {
    pub params: List<Param>,
    pub gives: Ty,
    pub tree: Tree,
    pub scope: Option<Bytes>,
    pub line: Line,
}

/// A parameter: its type, and where its value is kept.
#[derive(Drop)]
pub struct Param {
    pub ty: Ty,
    pub place: Place,
}
