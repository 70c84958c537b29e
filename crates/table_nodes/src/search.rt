ghost use Rattle.std.specs.Prelude.{◌≡◌, ◌+◌, ◌-◌, ◌≤◌, OnOk, OnErr, IfOk, IfSome, MatchResult, IfErr};
ghost use Rattle.heap_places.specs.obj_layout.Storing.{SameNumbers};
ghost use Rattle.heap_places.specs.swizzle.Heap.{IsHeld};
ghost use Rattle.heap_places.specs.swizzle.Touch.{Keeps};
ghost use Rattle.table_nodes.specs.Nodes.{IsNode, Grows};
ghost use Rattle.table_nodes.specs.Bringing.{Brings};
ghost use Rattle.table_nodes.specs.Fetching.{FetchesFound, FetchesStep};
ghost use Rattle.table_nodes.specs.Searching.{Charges, Finds, IsDown, StepsAt, came_by};
ghost use Rattle.table_nodes.specs.Sought.{IsKeyHeld, kind_of, key_in};
ghost use Rattle.table_nodes.specs.Spans.{IsSpan, IsValueOf};
ghost use Rattle.table_nodes.specs.Steps.{place};
ghost use Rattle.table_nodes.specs.Faults.{IsNodeFault};

use crate::keys::Key;
use crate::nodes::{height, side, value};
use crate::placing::place_key;
use crate::span::{Span, Way};
use counted_steps::steps::Steps;
use heap_places::obj_layout::vault::Vault;
use heap_places::places::damaged;
use heap_places::swizzle::fault::SwizzleFault;
use heap_places::swizzle::swizzle::Swizzle;
use std::cmp::Ordering;
use std::sync::ledger::Ledger;

/// What is found at a node: the key that is sought, or the way to where it is sought further.
#[derive(Clone, Copy)]
pub enum Step {
    Found,
    Down(Way),
}

// How the search for a key goes on at a node.
#[inline(always)]
fn look<V: Vault>(
    sw: &mut Swizzle,
    vault: &mut V,
    at: u32,
    key: Key,
    span: Span,
) -> Result<Step, SwizzleFault>
    requires alive { V.alive vault.old }
    requires node { IsNode sw.old at }
    requires key { IsKeyHeld sw.old key }
    requires span { IsSpan sw.old span }
    ensures steps { StepsAt (kind_of key) (place sw.old (V.outside vault.old)) sw.new at (key_in sw.old key) span result }
    ensures down { IfOk result (IsDown sw.new at key) }
    ensures grows { OnOk result (Grows sw.old sw.new (V.outside vault.old) (V.outside vault.new)) }
    ensures keeps { OnOk result (Keeps sw.old sw.new) }
    ensures still { OnErr result (Grows sw.old sw.new (V.outside vault.old) (V.outside vault.new)) }
    ensures brings { MatchResult result (λ step. Brings sw.old sw.new (came_by step)) (λ fault. Brings sw.old sw.new 1) }
    ensures fetched { FetchesStep (kind_of key) (place sw.old (V.outside vault.old)) sw.new at result }
    ensures fault { IfErr result (IsNodeFault (V.outside vault.old) (V.outside vault.new) sw.new) }
    ensures numbers { SameNumbers V.used_words V.directory_at V.most_words V.access vault.old vault.new }
    ensures alive { OnOk result (V.alive vault.new) }
{
    let placed = match place_key(sw, vault, at, key, span) {
        Ok(placed) => placed,
        Err(fault) => return Err(fault),
    };
    match placed.order {
        Ordering::Equal => Ok(Step::Found),
        Ordering::Less => match side(sw, vault, at, 0) {
            Ok(side) => Ok(Step::Down(Way {
                side,
                span: placed.span,
            })),
            Err(fault) => Err(fault),
        },
        Ordering::Greater => match side(sw, vault, at, 1) {
            Ok(side) => Ok(Step::Down(Way {
                side,
                span: placed.span,
            })),
            Err(fault) => Err(fault),
        },
    }
}

/// The value of a key in the tree of a root, where the tree has the key. Heights fall on the way down, from below the bound, and the key of each node
/// lies between those of the nodes above it, else a node is damaged; each node that is looked at is a step.
pub fn lookup<V: Vault, L: Ledger>(
    sw: &mut Swizzle,
    vault: &mut V,
    root: Option<u32>,
    bound: u64,
    key: Key,
    steps: &mut Steps<L>,
) -> Result<Option<u32>, SwizzleFault>
    requires alive { V.alive vault.old }
    requires root { IfSome root (IsNode sw.old) }
    requires bound { 1 ≤ bound }
    requires key { IsKeyHeld sw.old key }
    ensures found { Finds (kind_of key) (place sw.old (V.outside vault.old)) sw.new root bound (key_in sw.old key) result }
    ensures held { IfOk result (λ found. IfSome found (IsHeld sw.new)) }
    ensures value { IfOk result (λ found. IfSome found (IsValueOf sw.new key)) }
    ensures cost { steps.new ≤ steps.old + bound }
    ensures charged { Charges (kind_of key) (place sw.old (V.outside vault.old)) root bound (key_in sw.old key) steps.old steps.new result }
    ensures grows { OnOk result (Grows sw.old sw.new (V.outside vault.old) (V.outside vault.new)) }
    ensures keeps { OnOk result (Keeps sw.old sw.new) }
    ensures still { OnErr result (Grows sw.old sw.new (V.outside vault.old) (V.outside vault.new)) }
    ensures brings { Brings sw.old sw.new (steps.new - steps.old) }
    ensures fetched { FetchesFound (kind_of key) (place sw.old (V.outside vault.old)) sw.new root bound result }
    ensures fault { IfErr result (IsNodeFault (V.outside vault.old) (V.outside vault.new) sw.new) }
    ensures numbers { SameNumbers V.used_words V.directory_at V.most_words V.access vault.old vault.new }
    ensures alive { OnOk result (V.alive vault.new) }
{
    sw.sound();
    let mut at = root;
    let mut bound = bound;
    let mut span = Span {
        low: None,
        high: None,
    };
    while let Some(node) = at {
        steps.tick();
        let height = height(sw, &*vault, at);
        if height == 0 || height >= bound {
            return Err(damaged(sw, node, height, bound));
        }
        match look(sw, vault, node, key, span) {
            Ok(Step::Found) => {
                return match value(sw, vault, node) {
                    Ok(value) => Ok(Some(value)),
                    Err(fault) => Err(fault),
                };
            }
            Ok(Step::Down(way)) => {
                at = way.side;
                span = way.span;
            }
            Err(fault) => return Err(fault),
        }
        bound = height;
    }
    Ok(None)
}
