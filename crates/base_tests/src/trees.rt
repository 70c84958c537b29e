//! Trees of programs that are let go.

use ps_base::line::Line;
use ps_base::operator::Operator;
use ps_program::form::{Tree, TreeForm};
use std::alloc::{AllocError, Global};
use std::test::Fail;

// An operator over two operands, of three in turn.
fn joined(alloc: Global, place: u32, a: Tree, b: Tree) -> Result<Tree, AllocError> {
    match place % 3 {
        0 => Tree::new(alloc, TreeForm::And { a, b }),
        1 => Tree::new(alloc, TreeForm::Or { a, b }),
        _ => {
            let op = Operator::Add;
            let line = Line(1);
            Tree::new(alloc, TreeForm::Arith { op, a, b, line })
        }
    }
}

// A chain of so many operators over its first operand.
fn chain(alloc: Global, length: u32) -> Result<Tree, AllocError> {
    let mut tree = Tree::new(alloc, TreeForm::Int(1))?;
    for place in 0..length {
        let b = Tree::new(alloc, TreeForm::Int(2))?;
        tree = joined(alloc, place, tree, b)?;
    }
    Ok(tree)
}

// A tree as deep as its text is long is let go by a loop: no stack is deep enough for it.
#[test]
fn long_chains_are_let_go(rt: HostRuntime) -> Result<(), Fail> {
    let tree = chain(rt.alloc(), 500_000)?;
    assert!(rt; matches!(tree.into_form(), TreeForm::Or { .. }));
    let _dropped = chain(rt.alloc(), 500_000)?;
    Ok(())
}
