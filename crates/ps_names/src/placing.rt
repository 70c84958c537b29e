ghost use Rattle.std.specs.Prelude.{◌≡◌, [], ◌∷◌, false, OnOk, IfOk};
ghost use Rattle.ps_base.specs.List.{items_of};
ghost use Rattle.ps_type_text.specs.Members.{fields_of};
ghost use Rattle.ps_program.specs.Node as node;
ghost use Rattle.ps_base.specs.TyView.{ty_view};
ghost use Rattle.ps_program.specs.NodeView.{node_of, node_of_form, nodes_in, arm_of, body_of};
ghost use Rattle.ps_program.specs.inside.PartsView.{arms_in};
ghost use Rattle.ps_placer.specs.ps_typing.Placed.{placed, placed_all, placed_arms, placed_program};
ghost use Rattle.ps_placer.specs.ps_typing.Program.{bodies};
ghost use Rattle.ps_placer.specs.inside.Standing.{Does};
ghost use Rattle.ps_names.specs.inside.Chains.{is_link as is_link_of, first_or, with_first, placed_parts};
ghost use Rattle.ps_placer.specs.inside.Params.{text_in};
ghost use Rattle.ps_names.specs.inside.Clauses.{pair as pair_of, triple as triple_of, with_all as with_all_of, case_of, block_of, loop_of, named, scan_of, placed_assigned, placed_declared, placed_scan, placed_pair, placed_triple, placed_with_all, placed_case, placed_arm, placed_block};

use ps_base::bytes::Bytes;
use ps_base::list::List;
use ps_base::ty::Ty;
use ps_placer::placer::Placer;
use ps_placer::survey::surveyed;
use ps_program::body::Body;
use ps_program::form::{Arm, Loop, Tree, TreeForm};
use ps_program::place::Place;
use ps_type_text::Member;
use std::alloc::{AllocError, Global};
use std::mem;

/// A program in which each name has its place, each loop and each scan its locals, and each scope its text. In the program as
/// it is given, the place of a name is its number among these names; and whether a procedure literal stands in it is told.
pub fn place(
    alloc: Global,
    names: Vec<Member>,
    body: Body,
    literal: bool,
) -> Result<Body, AllocError>
    requires { literal ≡ false → bodies (body_of body) ≡ body_of body ∷ [] }
    ensures { IfOk result (λ made. body_of made ≡ placed_program (fields_of names.items) (body_of body)) }
{
    let survey = surveyed(alloc, &body, literal)?;
    let mut placer = Placer::new(alloc, names, survey);
    let mut body = body;
    place_literal(&mut placer, &mut body)?;
    Ok(body)
}

#[cycle(placing)]
fn place_tree(placer: &mut Placer, tree: &mut Tree) -> Result<(), AllocError>
    ensures { OnOk result (Does (λ around locals. placed around locals (node_of tree.old)) placer.old (node_of tree.new) placer.new) }
{
    if is_link(tree) {
        place_chain(placer, tree)
    } else {
        place_parts(placer, &mut tree.form)
    }
}

// The links of a chain stand inside one another as first parts as far as the text is long, so they are gone into and out
// of by loops: on the way in each gets, in place of its first part, the link that it was the first part of.
#[cycle(placing)]
fn place_chain(placer: &mut Placer, tree: &mut Tree) -> Result<(), AllocError>
    ensures { OnOk result (Does (λ around locals. placed around locals (node_of tree.old)) placer.old (node_of tree.new) placer.new) }
{
    let mut above = Tree::new(placer.alloc, TreeForm::Empty)?;
    while is_link(tree) {
        swap_first(tree, &mut above);
        mem::swap(tree, &mut above);
    }
    place_parts(placer, &mut tree.form)?;
    while is_link(&above) {
        swap_first(&mut above, tree);
        place_parts(placer, &mut above.form)?;
        mem::swap(tree, &mut above);
    }
    Ok(())
}

// The parts of a clause, but those of a link after its first.
#[cycle(placing)]
fn place_parts(placer: &mut Placer, form: &mut TreeForm) -> Result<(), AllocError>
    ensures { OnOk result (Does (λ around locals. placed_parts around locals (node_of_form form.old)) placer.old (node_of_form form.new) placer.new) }
{
    match form {
        TreeForm::Int(_)
        | TreeForm::Flag(_)
        | TreeForm::Text(_)
        | TreeForm::Nil
        | TreeForm::Class
        | TreeForm::Empty
        | TreeForm::Abort(_)
        | TreeForm::Field { .. } => Ok(()),
        TreeForm::Name { place, .. } => {
            *place = placer.place_of(*place);
            Ok(())
        }
        TreeForm::SetName { place, e, .. } => place_assigned(placer, place, e),
        TreeForm::Let { place, ty, e } => place_declared(placer, place, ty, e),
        TreeForm::Block { scope, items } => place_block(placer, scope, items),
        TreeForm::For(it) => place_loop(placer, it),
        TreeForm::Proc(body) => place_literal(placer, body),
        TreeForm::Case { e, arms, d, .. } => place_case(placer, e, arms, d),
        TreeForm::Scan { a, f, q, s, .. } => place_scan(placer, a, f, q, s),
        TreeForm::IfDo { c, a } => place_pair(placer, c, a),
        TreeForm::While { c, a } => place_pair(placer, c, a),
        TreeForm::Compare { a, b, .. } => place_pair(placer, a, b),
        TreeForm::SetField { p, e, .. } => place_pair(placer, p, e),
        TreeForm::Write { e, w, .. } => place_pair(placer, e, w),
        TreeForm::Part { i, n, .. } => place_pair(placer, i, n),
        TreeForm::IfElse { c, a, b } => place_triple(placer, c, a, b),
        TreeForm::Repeat { a, c, b } => place_triple(placer, a, c, b),
        TreeForm::Fill { l, u, e, .. } => place_triple(placer, l, u, e),
        TreeForm::SetElement { v, i, e, .. } => place_triple(placer, v, i, e),
        TreeForm::And { b, .. } => place_tree(placer, b),
        TreeForm::Or { b, .. } => place_tree(placer, b),
        TreeForm::Arith { b, .. } => place_tree(placer, b),
        TreeForm::Join { b, .. } => place_tree(placer, b),
        TreeForm::Element { i, .. } => place_tree(placer, i),
        TreeForm::Not(e) => place_tree(placer, e),
        TreeForm::Neg { e, .. } => place_tree(placer, e),
        TreeForm::Plus(e) => place_tree(placer, e),
        TreeForm::Is { e, .. } => place_tree(placer, e),
        TreeForm::Bound { v, .. } => place_tree(placer, v),
        TreeForm::Make { args, .. } => place_all(placer, args),
        TreeForm::Lib { args, .. } => place_all(placer, args),
        TreeForm::Call { args, .. } => place_all(placer, args),
        TreeForm::Elems { l, items, .. } => place_with_all(placer, l, items),
    }
}

#[cycle(placing)]
fn place_assigned(placer: &mut Placer, place: &mut Place, e: &mut Tree) -> Result<(), AllocError>
    ensures { OnOk result (Does (λ around locals. placed_assigned around locals place.old (node_of e.old)) placer.old (named place.new (node_of e.new)) placer.new) }
{
    *place = placer.place_of(*place);
    place_tree(placer, e)
}

#[cycle(placing)]
fn place_declared(
    placer: &mut Placer,
    place: &mut Place,
    ty: &Ty,
    e: &mut Tree,
) -> Result<(), AllocError>
    ensures { OnOk result (Does (λ around locals. placed_declared around locals place.old (ty_view ty.now) (node_of e.old)) placer.old (named place.new (node_of e.new)) placer.new) }
{
    placer.declare(*place, ty)?;
    *place = placer.place_of(*place);
    place_tree(placer, e)
}

// A scan takes three locals on each stack.
#[cycle(placing)]
fn place_scan(
    placer: &mut Placer,
    a: &mut Tree,
    f: &mut Tree,
    references: &mut u32,
    numbers: &mut u32,
) -> Result<(), AllocError>
    ensures { OnOk result (Does (λ around locals. placed_scan around locals (node_of a.old) (node_of f.old)) placer.old (scan_of (pair_of (node_of a.new) (node_of f.new)) references.new numbers.new) placer.new) }
{
    *references = placer.refs;
    *numbers = placer.nums;
    placer.take_numbers(3)?;
    placer.take_references(3)?;
    place_pair(placer, a, f)
}

#[cycle(placing)]
fn place_pair(placer: &mut Placer, a: &mut Tree, b: &mut Tree) -> Result<(), AllocError>
    ensures { OnOk result (Does (λ around locals. placed_pair around locals (node_of a.old) (node_of b.old)) placer.old (pair_of (node_of a.new) (node_of b.new)) placer.new) }
{
    place_tree(placer, a)?;
    place_tree(placer, b)
}

#[cycle(placing)]
fn place_triple(
    placer: &mut Placer,
    a: &mut Tree,
    b: &mut Tree,
    c: &mut Tree,
) -> Result<(), AllocError>
    ensures { OnOk result (Does (λ around locals. placed_triple around locals (node_of a.old) (node_of b.old) (node_of c.old)) placer.old (triple_of (node_of a.new) (node_of b.new) (node_of c.new)) placer.new) }
{
    place_pair(placer, a, b)?;
    place_tree(placer, c)
}

#[cycle(placing)]
fn place_with_all(
    placer: &mut Placer,
    first: &mut Tree,
    items: &mut List<Tree>,
) -> Result<(), AllocError>
    ensures { OnOk result (Does (λ around locals. placed_with_all around locals (node_of first.old) (nodes_in (items_of items.old))) placer.old (with_all_of (node_of first.new) (nodes_in (items_of items.new))) placer.new) }
{
    place_tree(placer, first)?;
    place_all(placer, items)
}

#[cycle(placing)]
fn place_all(placer: &mut Placer, items: &mut List<Tree>) -> Result<(), AllocError>
    ensures { OnOk result (Does (λ around locals. placed_all around locals (nodes_in (items_of items.old))) placer.old (nodes_in (items_of items.new)) placer.new) }
{
    let mut trees = mem::replace(items, List::new(Vec::new(placer.alloc))).into_vec();
    for i in 0..trees.len() {
        place_tree(placer, &mut trees[i])?;
    }
    *items = List::new(trees);
    Ok(())
}

#[cycle(placing)]
fn place_case(
    placer: &mut Placer,
    e: &mut Tree,
    arms: &mut List<Arm>,
    d: &mut Tree,
) -> Result<(), AllocError>
    ensures { OnOk result (Does (λ around locals. placed_case around locals (node_of e.old) (arms_in (items_of arms.old)) (node_of d.old)) placer.old (case_of (node_of e.new) (arms_in (items_of arms.new)) (node_of d.new)) placer.new) }
{
    place_tree(placer, e)?;
    place_arms(placer, arms)?;
    place_tree(placer, d)
}

#[cycle(placing)]
fn place_arms(placer: &mut Placer, arms: &mut List<Arm>) -> Result<(), AllocError>
    ensures { OnOk result (Does (λ around locals. placed_arms around locals (arms_in (items_of arms.old))) placer.old (arms_in (items_of arms.new)) placer.new) }
{
    let mut list = mem::replace(arms, List::new(Vec::new(placer.alloc))).into_vec();
    for i in 0..list.len() {
        place_arm(placer, &mut list[i])?;
    }
    *arms = List::new(list);
    Ok(())
}

#[cycle(placing)]
fn place_arm(placer: &mut Placer, arm: &mut Arm) -> Result<(), AllocError>
    ensures { OnOk result (Does (λ around locals. placed_arm around locals (arm_of arm.old)) placer.old (arm_of arm.new) placer.new) }
{
    place_all(placer, &mut arm.labels)?;
    place_tree(placer, &mut arm.a)
}

#[cycle(placing)]
fn place_block(
    placer: &mut Placer,
    scope: &mut Option<Box<Bytes>>,
    items: &mut List<Tree>,
) -> Result<(), AllocError>
    ensures { OnOk result (Does (λ around locals. placed_block around locals (nodes_in (items_of items.old))) placer.old (block_of (text_in scope.new) (nodes_in (items_of items.new))) placer.new) }
{
    let kept = placer.kept_items(items.as_slice())?;
    *scope = placer.boxed_scope_text(kept.as_slice())?;
    let outer = placer.enter(kept.as_slice())?;
    place_all(placer, items)?;
    placer.leave(outer)
}

// A loop takes its three locals and that of its control, which is known in what it does.
#[cycle(placing)]
fn place_loop(placer: &mut Placer, it: &mut Loop) -> Result<(), AllocError>
    ensures { OnOk result (Does (λ around locals. placed around locals (loop_of it.old)) placer.old (loop_of it.new) placer.new) }
{
    it.slot = placer.nums;
    placer.take_numbers(3)?;
    placer.declare(it.control, &Ty::Int)?;
    let kept = placer.kept_control(it.control)?;
    it.scope = placer.scope_text(kept.as_slice())?;
    it.control = placer.place_inside(kept.as_slice(), it.control);
    place_triple(placer, &mut it.a, &mut it.b, &mut it.c)?;
    let outer = placer.enter(kept.as_slice())?;
    place_tree(placer, &mut it.s)?;
    placer.leave(outer)
}

// A body has locals of its own, and a scope where it keeps parameters.
#[cycle(placing)]
fn place_literal(placer: &mut Placer, body: &mut Body) -> Result<(), AllocError>
    ensures { OnOk result (Does (λ around locals. placed around locals (node.Proc (body_of body.old))) placer.old (node.Proc (body_of body.new)) placer.new) }
{
    let (nums, refs) = (placer.nums, placer.refs);
    placer.nums = 0;
    placer.refs = 0;
    let kept = placer.kept_params(body.params.as_slice())?;
    body.scope = placer.scope_text(kept.as_slice())?;
    let outer = placer.enter(kept.as_slice())?;
    placer.declare_params(body.params.as_slice())?;
    placer.place_params(&mut body.params);
    place_tree(placer, &mut body.tree)?;
    placer.leave(outer)?;
    placer.nums = nums;
    placer.refs = refs;
    Ok(())
}

// Whether a clause is a link of a chain: an operator, or what is applied to a value.
fn is_link(tree: &Tree) -> bool
    ensures { result ≡ is_link_of (node_of tree.now) }
{
    match &*tree.form {
        TreeForm::And { .. }
        | TreeForm::Or { .. }
        | TreeForm::Arith { .. }
        | TreeForm::Join { .. }
        | TreeForm::Part { .. }
        | TreeForm::Field { .. }
        | TreeForm::Element { .. }
        | TreeForm::Call { .. } => true,
        _ => false,
    }
}

// Swaps the first part of a link with another clause.
fn swap_first(link: &mut Tree, other: &mut Tree)
    ensures first { node_of other.new ≡ first_or (node_of other.old) (node_of link.old) }
    ensures with { node_of link.new ≡ with_first (node_of other.old) (node_of link.old) }
{
    match &mut *link.form {
        TreeForm::And { a, .. } => mem::swap(a, other),
        TreeForm::Or { a, .. } => mem::swap(a, other),
        TreeForm::Arith { a, .. } => mem::swap(a, other),
        TreeForm::Join { a, .. } => mem::swap(a, other),
        TreeForm::Part { a, .. } => mem::swap(a, other),
        TreeForm::Field { e, .. } => mem::swap(e, other),
        TreeForm::Element { v, .. } => mem::swap(v, other),
        TreeForm::Call { f, .. } => mem::swap(f, other),
        _ => {}
    }
}
