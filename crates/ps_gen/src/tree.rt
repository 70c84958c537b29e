ghost use Rattle.std.specs.Prelude.{OnOk};
ghost use Rattle.ps_program.specs.NodeView.{node_of};
ghost use Rattle.ps_emitter.specs.Chains.{type_in};
ghost use Rattle.ps_emitter.specs.Pieces.{state_of, Puts};
ghost use Rattle.ps_gen.specs.inside.Clauses.{clause, behind_of, made};

use crate::cases::case;
use crate::jumps::{block, for_loop, if_else, jump_over, repeat_loop, while_loop};
use crate::literals::procedure;
use crate::operands::{all, all_then, one_then, two_then, vector_filled, vector_of};
use crate::scans::scan;
use ps_base::instr::Instr;
use ps_emitter::choices::{arith, bound, by_type, compare, flag, get, set, write};
use ps_emitter::emitter::Emitter;
use ps_emitter::forward::Forward;
use ps_emitter::known::{Known, known_of};
use ps_emitter::naming::Naming;
use ps_emitter::spine::gather;
use ps_program::form::{Tree, TreeForm};
use std::alloc::AllocError;

/// Puts the code of a clause. A chain is gone down and up again by loops, since it may be as long as the text.
#[cycle(tree)]
pub(crate) fn tree(emitter: &mut Emitter, tree: &Tree) -> Result<(), AllocError>
    ensures { OnOk result (Puts (clause (node_of tree.now)) (state_of emitter.old) (state_of emitter.new)) }
{
    let mut links = Vec::new(emitter.alloc);
    let innermost = gather(&mut links, tree)?;
    form(emitter, innermost)?;
    let mut known = known_of(innermost)?;
    while let Some(link) = links.pop() {
        behind(emitter, link, known)?;
        known = known.behind(link);
    }
    Ok(())
}

// The code of a link after its first part.
#[cycle(tree)]
fn behind(emitter: &mut Emitter, link: &Tree, known: Known) -> Result<(), AllocError>
    ensures { OnOk result (Puts (behind_of (type_in known.entry) (node_of link.now)) (state_of emitter.old) (state_of emitter.new)) }
{
    match &*link.form {
        TreeForm::SetName { place, ty, .. } => emitter.put(set(*place, ty)),
        TreeForm::Let { place, ty, .. } => emitter.declare(*place, ty),
        TreeForm::And { b, .. } => jump_over(emitter, Forward::And, b),
        TreeForm::Or { b, .. } => jump_over(emitter, Forward::Or, b),
        TreeForm::Not(_) => emitter.put(Instr::Not),
        TreeForm::Neg { line, .. } => emitter.put(Instr::Neg { line: *line }),
        TreeForm::Plus(_) => emitter.nothing(),
        TreeForm::Arith { op, b, line, .. } => one_then(emitter, b, arith(*op, *line)),
        TreeForm::Compare { op, ty, b, .. } => one_then(emitter, b, compare(*op, ty)),
        TreeForm::Is { class, .. } => emitter.name(Naming::Is, class.as_slice()),
        TreeForm::Join { b, line, .. } => one_then(emitter, b, Instr::Join { line: *line }),
        TreeForm::Part { i, n, line, .. } => two_then(emitter, i, n, Instr::Part { line: *line }),
        TreeForm::Field {
            class,
            index,
            ty,
            line,
            ..
        } => {
            let it = Naming::Field {
                index: *index,
                ty,
                line: *line,
            };
            emitter.name(it, class.as_slice())
        }
        TreeForm::SetField {
            class,
            ty,
            e,
            index,
            line,
            ..
        } => {
            let it = Naming::SetField {
                index: *index,
                ty,
                line: *line,
            };
            tree(emitter, e)?;
            emitter.name(it, class.as_slice())
        }
        TreeForm::Element { i, ty, line, .. } => {
            let (m, p) = (Instr::ElemM { line: *line }, Instr::ElemP { line: *line });
            one_then(emitter, i, by_type(ty, m, p))
        }
        TreeForm::SetElement { i, e, ty, line, .. } => {
            let m = Instr::SetElemM { line: *line };
            let p = Instr::SetElemP { line: *line };
            two_then(emitter, i, e, by_type(ty, m, p))
        }
        TreeForm::Bound { upper, .. } => emitter.put(bound(*upper)),
        TreeForm::Call { args, line, .. } => {
            let n = known.references()?;
            all_then(emitter, args.as_slice(), Instr::Call { n, line: *line })
        }
        TreeForm::Int(_)
        | TreeForm::Flag(_)
        | TreeForm::Text(_)
        | TreeForm::Nil
        | TreeForm::Name { .. }
        | TreeForm::Class
        | TreeForm::Empty
        | TreeForm::Block { .. }
        | TreeForm::IfDo { .. }
        | TreeForm::IfElse { .. }
        | TreeForm::While { .. }
        | TreeForm::Repeat { .. }
        | TreeForm::For(_)
        | TreeForm::Case { .. }
        | TreeForm::Make { .. }
        | TreeForm::Fill { .. }
        | TreeForm::Elems { .. }
        | TreeForm::Proc(_)
        | TreeForm::Lib { .. }
        | TreeForm::Scan { .. }
        | TreeForm::Write { .. }
        | TreeForm::Abort(_) => emitter.nothing(),
    }
}

// The code of a clause that has no such first part.
#[cycle(tree)]
fn form(emitter: &mut Emitter, it: &Tree) -> Result<(), AllocError>
    ensures { OnOk result (Puts (made (node_of it.now)) (state_of emitter.old) (state_of emitter.new)) }
{
    match &*it.form {
        TreeForm::Int(v) => emitter.put(Instr::Int { v: *v }),
        TreeForm::Flag(b) => emitter.put(flag(*b)),
        TreeForm::Text(bytes) => emitter.name(Naming::Text, bytes.as_slice()),
        TreeForm::Nil => emitter.put(Instr::Nil),
        TreeForm::Name { place, ty } => emitter.put(get(*place, ty)),
        TreeForm::Block { scope, items } => block(emitter, scope, items.as_slice()),
        TreeForm::IfDo { c, a } => {
            tree(emitter, c)?;
            jump_over(emitter, Forward::JumpFalse, a)
        }
        TreeForm::IfElse { c, a, b } => if_else(emitter, c, a, b),
        TreeForm::While { c, a } => while_loop(emitter, c, a),
        TreeForm::Repeat { a, c, b } => repeat_loop(emitter, a, c, b),
        TreeForm::For(it) => for_loop(emitter, it),
        TreeForm::Case { e, arms, d, ty } => case(emitter, e, arms.as_slice(), d, ty),
        TreeForm::Make { class, args } => {
            all(emitter, args.as_slice())?;
            emitter.name(Naming::Make, class.as_slice())
        }
        TreeForm::Fill { l, u, e, ty, line } => vector_filled(emitter, l, u, e, ty, *line),
        TreeForm::Elems { l, items, ty, line } => {
            vector_of(emitter, l, items.as_slice(), ty, *line)
        }
        TreeForm::Proc(body) => procedure(emitter, body),
        TreeForm::Lib { code, args, line } => {
            let k = *code as u32;
            all_then(emitter, args.as_slice(), Instr::Lib { k, line: *line })
        }
        TreeForm::Scan {
            text,
            a,
            f,
            q,
            s,
            line,
        } => scan(emitter, *text, a, f, *q, *s, *line),
        TreeForm::Write {
            e,
            w,
            wide,
            ty,
            line,
        } => { two_then(emitter, e, w, write(ty, *wide, *line)) }
        TreeForm::Abort(line) => emitter.put(Instr::Abort { line: *line }),
        TreeForm::SetName { .. }
        | TreeForm::Let { .. }
        | TreeForm::Class
        | TreeForm::Empty
        | TreeForm::And { .. }
        | TreeForm::Or { .. }
        | TreeForm::Not(_)
        | TreeForm::Neg { .. }
        | TreeForm::Plus(_)
        | TreeForm::Arith { .. }
        | TreeForm::Compare { .. }
        | TreeForm::Is { .. }
        | TreeForm::Join { .. }
        | TreeForm::Part { .. }
        | TreeForm::Field { .. }
        | TreeForm::SetField { .. }
        | TreeForm::Element { .. }
        | TreeForm::SetElement { .. }
        | TreeForm::Bound { .. }
        | TreeForm::Call { .. } => emitter.nothing(),
    }
}
