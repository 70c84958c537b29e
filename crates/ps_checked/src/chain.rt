ghost use Rattle.std.specs.Prelude.{◌≡◌, ◌+◌, ◌≤◌, IfOk, IfErr, IfSome};
ghost use Rattle.ps_tree.specs.Phrase.{phrase_of};
ghost use Rattle.ps_declared.specs.ps_typing.Names.{Names};
ghost use Rattle.ps_declared.specs.ps_typing.Checking.{check as check_of};
ghost use Rattle.ps_declared.specs.inside.Answers.{IsMemory};
ghost use Rattle.ps_checked.specs.inside.Links.{check_link, check_links};
ghost use Rattle.ps_checked.specs.inside.Weights.{weight, weight_link, weight_links};

use crate::link::{Joint, Link};
use ps_declared::fault::CheckFault;
use ps_declared::looks::name_in;
use ps_tree::rough::{Rough, RoughForm};
use std::alloc::Global;

/// The links of a chain, the last first, and its innermost left operand.
#[derive(Drop)]
pub struct Chain<'a> {
    pub links: Vec<Link<'a>>,
    pub innermost: &'a Rough,
}

/// The links of a chain, of which the last is known and what stands before it. What is applied by its name has no left operand. The only
/// fault is `Memory`.
pub fn gather<'a>(alloc: Global, last: Link<'a>, left: &'a Rough) -> Result<Chain<'a>, CheckFault>
    ensures chain { IfOk result (λ chain. (names : Names) → check_links chain.links.items (check_of names (phrase_of chain.innermost.now)) ≡ check_link last.entry (check_of names (phrase_of left.now))) }
    ensures lighter { IfOk result (λ chain. weight_links chain.links.items + weight (phrase_of chain.innermost.now) ≤ weight_link last.entry + weight (phrase_of left.now)) }
    ensures fault { IfErr result IsMemory }
{
    let mut links = Vec::new(alloc);
    links.push(last)?;
    let mut innermost = left;
    while let Some((link, inner)) = link_of(innermost) {
        links.push(link)?;
        innermost = inner;
    }
    Ok(Chain { links, innermost })
}

// The last link of a chain and what stands before it, where a clause is a chain.
fn link_of(rough: &Rough) -> Option<(Link, &Rough)>
    ensures chain { IfSome result (λ parts. (names : Names) → check_of names (phrase_of rough.now) ≡ check_link parts.0 (check_of names (phrase_of parts.1.now))) }
    ensures weight { IfSome result (λ parts. weight (phrase_of rough.now) ≡ weight (phrase_of parts.1.now) + weight_link parts.0 + 1) }
{
    let line = rough.line;
    match &*rough.form {
        RoughForm::Or { a, b } => Some((Link::new(Joint::Or, a, b), a)),
        RoughForm::And { a, b } => Some((Link::new(Joint::And, a, b), a)),
        RoughForm::Join { a, b } => Some((Link::new(Joint::Join(line), a, b), a)),
        RoughForm::Arith { op, a, b } => Some((Link::new(Joint::Arith(*op, line), a, b), a)),
        RoughForm::Part { s, i, n } => Some((Link::part(line, s, i, n), s)),
        RoughForm::Apply { f, args } => match name_in(f) {
            Some(_) => None,
            None => Some((Link::apply(line, args.as_slice()), f)),
        },
        _ => None,
    }
}
