ghost use Rattle.std.specs.Prelude.{◌≡◌, None, option_map, IfOk};
ghost use Rattle.ps_program.specs.Node.{Node};
ghost use Rattle.ps_program.specs.NodeView.{node_of};
ghost use Rattle.ps_emitter.specs.Chains.{first_part, Chained};

use ps_program::form::{Tree, TreeForm};
use std::alloc::AllocError;

/// Goes down the first parts of a chain, keeps the links on the way, and answers the innermost.
pub fn gather<'a>(links: &mut Vec<&'a Tree>, tree: &'a Tree) -> Result<&'a Tree, AllocError>
    ensures chain { IfOk result (λ inner. (whole : Node) → Chained whole links.old.items (node_of tree.now) → Chained whole links.new.items (node_of inner.now)) }
    ensures end { IfOk result (λ inner. first_part (node_of inner.now) ≡ None) }
{
    let mut rest = tree;
    while let Some(first) = first_of(rest) {
        links.push(rest)?;
        rest = first;
    }
    Ok(rest)
}

// The first part of a clause, where its code is that of a first part and more.
fn first_of(tree: &Tree) -> Option<&Tree>
    ensures { option_map (λ first. node_of first.now) result ≡ first_part (node_of tree.now) }
{
    match &*tree.form {
        TreeForm::SetName { e, .. } => Some(e),
        TreeForm::Let { e, .. } => Some(e),
        TreeForm::And { a, .. } => Some(a),
        TreeForm::Or { a, .. } => Some(a),
        TreeForm::Not(e) => Some(e),
        TreeForm::Neg { e, .. } => Some(e),
        TreeForm::Plus(e) => Some(e),
        TreeForm::Arith { a, .. } => Some(a),
        TreeForm::Compare { a, .. } => Some(a),
        TreeForm::Is { e, .. } => Some(e),
        TreeForm::Join { a, .. } => Some(a),
        TreeForm::Part { a, .. } => Some(a),
        TreeForm::Field { e, .. } => Some(e),
        TreeForm::SetField { p, .. } => Some(p),
        TreeForm::Element { v, .. } => Some(v),
        TreeForm::SetElement { v, .. } => Some(v),
        TreeForm::Bound { v, .. } => Some(v),
        TreeForm::Call { f, .. } => Some(f),
        _ => None,
    }
}
