ghost use Rattle.std.specs.Prelude.{◌≡◌, ◌+◌, ◌-◌, ◌≤◌, OnOk, OnErr, IfOk, IfSome, IfErr};
ghost use Rattle.heap_places.specs.obj_layout.Storing.{SameNumbers};
ghost use Rattle.heap_places.specs.swizzle.Touch.{Keeps};
ghost use Rattle.table_nodes.specs.Bringing.{Brings};
ghost use Rattle.table_nodes.specs.Fetching.{FetchesStep, FetchesWay};
ghost use Rattle.table_nodes.specs.Nodes.{IsNode, Grows};
ghost use Rattle.table_nodes.specs.Following.{Begins, BeginsAt, Follows, TurnsAt};
ghost use Rattle.table_nodes.specs.Sought.{IsKeyHeld, kind_of, key_in, keys_of};
ghost use Rattle.table_nodes.specs.Spans.{IsSpan};
ghost use Rattle.table_nodes.specs.Steps.{place};
ghost use Rattle.table_nodes.specs.Faults.{IsNodeFault};

use crate::keys::{Key, KeyKind};
use crate::nodes::{height, side};
use crate::placing::{narrow_left, place_key};
use crate::span::{Span, Way};
use heap_places::obj_layout::vault::Vault;
use heap_places::places::damaged;
use heap_places::swizzle::fault::SwizzleFault;
use heap_places::swizzle::swizzle::Swizzle;
use std::cmp::Ordering;

/// The last node above the sought key, the side where the search goes on, and the span of the keys there.
#[derive(Clone, Copy)]
pub struct Turn {
    pub last: Option<u32>,
    pub side: Option<u32>,
    pub span: Span,
}

// How the search for the next key goes on at a node.
fn go_on<V: Vault>(
    sw: &mut Swizzle,
    vault: &mut V,
    at: u32,
    key: Key,
    last: Option<u32>,
    span: Span,
) -> Result<Turn, SwizzleFault>
    requires alive { V.alive vault.old }
    requires node { IsNode sw.old at }
    requires key { IsKeyHeld sw.old key }
    requires last { IfSome last (IsNode sw.old) }
    requires span { IsSpan sw.old span }
    ensures turns { TurnsAt (kind_of key) (place sw.old (V.outside vault.old)) sw.new at last (key_in sw.old key) span result }
    ensures span { IfOk result (λ turn. IsSpan sw.new turn.span) }
    ensures last { IfOk result (λ turn. IfSome turn.last (IsNode sw.new)) }
    ensures side { IfOk result (λ turn. IfSome turn.side (IsNode sw.new)) }
    ensures grows { OnOk result (Grows sw.old sw.new (V.outside vault.old) (V.outside vault.new)) }
    ensures keeps { OnOk result (Keeps sw.old sw.new) }
    ensures still { OnErr result (Grows sw.old sw.new (V.outside vault.old) (V.outside vault.new)) }
    ensures brings { Brings sw.old sw.new 1 }
    ensures fetched { FetchesStep (kind_of key) (place sw.old (V.outside vault.old)) sw.new at result }
    ensures fault { IfErr result (IsNodeFault (V.outside vault.old) (V.outside vault.new) sw.new) }
    ensures numbers { SameNumbers V.used_words V.directory_at V.most_words V.access vault.old vault.new }
    ensures alive { OnOk result (V.alive vault.new) }
{
    let placed = match place_key(sw, vault, at, key, span) {
        Ok(placed) => placed,
        Err(fault) => return Err(fault),
    };
    if placed.order == Ordering::Less {
        return match side(sw, vault, at, 0) {
            Ok(side) => Ok(Turn {
                last: Some(at),
                side,
                span: placed.span,
            }),
            Err(fault) => Err(fault),
        };
    }
    match side(sw, vault, at, 1) {
        Ok(side) => Ok(Turn {
            last,
            side,
            span: placed.span,
        }),
        Err(fault) => Err(fault),
    }
}

/// The node of the least key above a key in the tree of a root. Heights fall on the way down, from below the bound, and the key of each node lies
/// between those of the nodes above it, else a node is damaged.
pub fn next<V: Vault>(
    sw: &mut Swizzle,
    vault: &mut V,
    root: Option<u32>,
    bound: u64,
    key: Key,
) -> Result<Option<u32>, SwizzleFault>
    requires alive { V.alive vault.old }
    requires root { IfSome root (IsNode sw.old) }
    requires bound { 1 ≤ bound }
    requires key { IsKeyHeld sw.old key }
    ensures follows { Follows (kind_of key) (place sw.old (V.outside vault.old)) sw.new root bound (key_in sw.old key) result }
    ensures node { IfOk result (λ found. IfSome found (IsNode sw.new)) }
    ensures grows { OnOk result (Grows sw.old sw.new (V.outside vault.old) (V.outside vault.new)) }
    ensures keeps { OnOk result (Keeps sw.old sw.new) }
    ensures still { OnErr result (Grows sw.old sw.new (V.outside vault.old) (V.outside vault.new)) }
    ensures brings { Brings sw.old sw.new (bound - 1) }
    ensures fetched { FetchesWay (kind_of key) (place sw.old (V.outside vault.old)) sw.new root bound result }
    ensures fault { IfErr result (IsNodeFault (V.outside vault.old) (V.outside vault.new) sw.new) }
    ensures numbers { SameNumbers V.used_words V.directory_at V.most_words V.access vault.old vault.new }
    ensures alive { OnOk result (V.alive vault.new) }
{
    sw.sound();
    let mut at = root;
    let mut bound = bound;
    let mut last = None;
    let mut span = Span {
        low: None,
        high: None,
    };
    while let Some(node) = at {
        let height = height(sw, &*vault, at);
        if height == 0 || height >= bound {
            return Err(damaged(sw, node, height, bound));
        }
        match go_on(sw, vault, node, key, last, span) {
            Ok(turn) => {
                last = turn.last;
                at = turn.side;
                span = turn.span;
            }
            Err(fault) => return Err(fault),
        }
        bound = height;
    }
    Ok(last)
}

// The left side of a node, and the span of the keys there.
fn go_first<V: Vault>(
    sw: &mut Swizzle,
    vault: &mut V,
    at: u32,
    keys: KeyKind,
    span: Span,
) -> Result<Way, SwizzleFault>
    requires alive { V.alive vault.old }
    requires node { IsNode sw.old at }
    requires span { IsSpan sw.old span }
    ensures begins { BeginsAt (keys_of keys) (place sw.old (V.outside vault.old)) sw.new at span result }
    ensures side { IfOk result (λ way. IfSome way.side (IsNode sw.new)) }
    ensures span { IfOk result (λ way. IsSpan sw.new way.span) }
    ensures grows { OnOk result (Grows sw.old sw.new (V.outside vault.old) (V.outside vault.new)) }
    ensures keeps { OnOk result (Keeps sw.old sw.new) }
    ensures still { OnErr result (Grows sw.old sw.new (V.outside vault.old) (V.outside vault.new)) }
    ensures brings { Brings sw.old sw.new 1 }
    ensures fetched { FetchesStep (keys_of keys) (place sw.old (V.outside vault.old)) sw.new at result }
    ensures fault { IfErr result (IsNodeFault (V.outside vault.old) (V.outside vault.new) sw.new) }
    ensures numbers { SameNumbers V.used_words V.directory_at V.most_words V.access vault.old vault.new }
    ensures alive { OnOk result (V.alive vault.new) }
{
    let span = match narrow_left(sw, vault, at, keys, span) {
        Ok(span) => span,
        Err(fault) => return Err(fault),
    };
    match side(sw, vault, at, 0) {
        Ok(side) => Ok(Way { side, span }),
        Err(fault) => Err(fault),
    }
}

/// The node of the least key in the tree of a root. Heights and keys fall on the way down, heights from below the bound, else a node is damaged.
pub fn first<V: Vault>(
    sw: &mut Swizzle,
    vault: &mut V,
    root: Option<u32>,
    bound: u64,
    keys: KeyKind,
) -> Result<Option<u32>, SwizzleFault>
    requires alive { V.alive vault.old }
    requires root { IfSome root (IsNode sw.old) }
    requires bound { 1 ≤ bound }
    ensures begins { Begins (keys_of keys) (place sw.old (V.outside vault.old)) sw.new root bound result }
    ensures node { IfOk result (λ found. IfSome found (IsNode sw.new)) }
    ensures grows { OnOk result (Grows sw.old sw.new (V.outside vault.old) (V.outside vault.new)) }
    ensures keeps { OnOk result (Keeps sw.old sw.new) }
    ensures still { OnErr result (Grows sw.old sw.new (V.outside vault.old) (V.outside vault.new)) }
    ensures brings { Brings sw.old sw.new (bound - 1) }
    ensures fetched { FetchesWay (keys_of keys) (place sw.old (V.outside vault.old)) sw.new root bound result }
    ensures fault { IfErr result (IsNodeFault (V.outside vault.old) (V.outside vault.new) sw.new) }
    ensures numbers { SameNumbers V.used_words V.directory_at V.most_words V.access vault.old vault.new }
    ensures alive { OnOk result (V.alive vault.new) }
{
    sw.sound();
    let mut at = root;
    let mut bound = bound;
    let mut last = None;
    let mut span = Span {
        low: None,
        high: None,
    };
    while let Some(node) = at {
        let height = height(sw, &*vault, at);
        if height == 0 || height >= bound {
            return Err(damaged(sw, node, height, bound));
        }
        match go_first(sw, vault, node, keys, span) {
            Ok(way) => {
                last = Some(node);
                at = way.side;
                span = way.span;
            }
            Err(fault) => return Err(fault),
        }
        bound = height;
    }
    Ok(last)
}
