ghost use Rattle.std.specs.Prelude.{◌≡◌, ◌≢◌, OnOk, OnErr, IfOk, IfErr, IfSome, MatchResult};
ghost use Rattle.std.specs.declared.cmp.Ordering.TheVariants.{Less, Equal, Greater};
ghost use Rattle.heap_places.specs.obj_layout.Storing.{SameNumbers};
ghost use Rattle.heap_places.specs.swizzle.Touch.{Keeps};
ghost use Rattle.table_nodes.specs.Fetching.{FetchesKey};
ghost use Rattle.table_nodes.specs.Bringing.{Brings};
ghost use Rattle.table_nodes.specs.Faults.{IsNodeFault};
ghost use Rattle.table_nodes.specs.Nodes.{IsNode, Grows};
ghost use Rattle.table_nodes.specs.Sought.{IsKeyHeld, kind_of, key_in, keys_of};
ghost use Rattle.table_nodes.specs.Spans.{HasKey, HasSought, IsOutside, IsSpan, NarrowsAt, PlacesAt, ReadsKey, key_number, keys_order, narrow};
ghost use Rattle.table_nodes.specs.Steps.{place};

use crate::keys::{Key, KeyKind, int_key, kind_of_key, text_key};
use crate::span::Span;
use heap_places::obj_layout::vault::Vault;
use heap_places::places::damaged;
use heap_places::swizzle::fault::SwizzleFault;
use heap_places::swizzle::swizzle::Swizzle;
use heap_places::words::word_of_int;
use std::cmp::Ordering;
use text_ops::operators::compare;

// The key of a node, of this kind. Its text is fetched where it isn't in the area.
#[inline(always)]
fn key_of<V: Vault>(
    sw: &mut Swizzle,
    vault: &mut V,
    at: u32,
    keys: KeyKind,
) -> Result<Key, SwizzleFault>
    requires alive { V.alive vault.old }
    requires node { IsNode sw.old at }
    ensures read { ReadsKey (keys_of keys) (place sw.old (V.outside vault.old)) sw.new at result }
    ensures has { IfOk result (HasKey sw.new at) }
    ensures grows { OnOk result (Grows sw.old sw.new (V.outside vault.old) (V.outside vault.new)) }
    ensures keeps { OnOk result (Keeps sw.old sw.new) }
    ensures still { OnErr result (Grows sw.old sw.new (V.outside vault.old) (V.outside vault.new)) }
    ensures brings { MatchResult result (λ answer. Brings sw.old sw.new 0) (λ fault. Brings sw.old sw.new 1) }
    ensures fetched { FetchesKey (keys_of keys) (place sw.old (V.outside vault.old)) sw.new at result }
    ensures fault { IfErr result (IsNodeFault (V.outside vault.old) (V.outside vault.new) sw.new) }
    ensures numbers { SameNumbers V.used_words V.directory_at V.most_words V.access vault.old vault.new }
    ensures alive { OnOk result (V.alive vault.new) }
{
    sw.sound();
    match keys {
        KeyKind::Ints => match int_key(sw, &*vault, at) {
            Ok(value) => Ok(Key::Int(value)),
            Err(fault) => Err(fault),
        },
        KeyKind::Texts => match text_key(sw, vault, at) {
            Ok(text) => Ok(Key::Text(text)),
            Err(fault) => Err(fault),
        },
    }
}

// How two keys of one kind stand to each other.
#[inline(always)]
fn compare_keys(sw: &Swizzle, key: Key, other: Key) -> Ordering
    requires key { IsKeyHeld sw.now key }
    requires other { IsKeyHeld sw.now other }
    ensures { result ≡ keys_order sw.now key other }
{
    match (key, other) {
        (Key::Int(a), Key::Int(b)) => a.cmp(&b),
        (Key::Text(a), Key::Text(b)) => compare(sw, a, b),
        (Key::Int(_), Key::Text(_)) => Ordering::Equal,
        (Key::Text(_), Key::Int(_)) => Ordering::Equal,
    }
}

// By what a key is reported: the word of an int, or the PID of a text.
fn number_of(sw: &Swizzle, key: Key) -> u64
    requires key { IsKeyHeld sw.now key }
    ensures { result ≡ key_number sw.now key }
{
    match key {
        Key::Int(value) => word_of_int(value),
        Key::Text(text) => sw.pid(text),
    }
}

// The key of a node is to be below that of a node above it, or above it, as `wanted` says.
#[inline(always)]
fn check_side(
    sw: &Swizzle,
    at: u32,
    own: Key,
    edge: Option<Key>,
    wanted: Ordering,
) -> Result<(), SwizzleFault>
    requires own { HasKey sw.now at own }
    requires edge { IfSome edge (IsKeyHeld sw.now) }
    ensures { IfErr result (IsOutside sw.now at own edge wanted) }
{
    let Some(edge) = edge else {
        return Ok(());
    };
    if compare_keys(sw, own, edge) == wanted {
        return Ok(());
    }
    Err(damaged(sw, at, number_of(sw, own), number_of(sw, edge)))
}

// Whether a node's key lies in the span, on the side that the search doesn't take: below the higher end, where the sought key is below it, else above the
// lower end. On the other side it does, since the sought key does.
#[inline(always)]
fn check_span(
    sw: &Swizzle,
    at: u32,
    order: Ordering,
    own: Key,
    span: Span,
) -> Result<(), SwizzleFault>
    requires own { HasKey sw.now at own }
    requires span { IsSpan sw.now span }
    ensures less { order ≡ Less → IfErr result (IsOutside sw.now at own span.high Less) }
    ensures other { order ≢ Less → IfErr result (IsOutside sw.now at own span.low Greater) }
{
    if order == Ordering::Less {
        check_side(sw, at, own, span.high, Ordering::Less)
    } else {
        check_side(sw, at, own, span.low, Ordering::Greater)
    }
}

// The span on the side that the search takes.
#[inline(always)]
fn narrowed(order: Ordering, own: Key, span: Span) -> Span
    ensures { result ≡ narrow order own span }
{
    match order {
        Ordering::Less => Span {
            low: span.low,
            high: Some(own),
        },
        Ordering::Equal => Span {
            low: Some(own),
            high: span.high,
        },
        Ordering::Greater => Span {
            low: Some(own),
            high: span.high,
        },
    }
}

/// The span on the left side of a node, whose key is of this kind and is to be below the higher end of a span, else it is damaged. Its text is fetched
/// where it isn't in the area.
pub fn narrow_left<V: Vault>(
    sw: &mut Swizzle,
    vault: &mut V,
    at: u32,
    keys: KeyKind,
    span: Span,
) -> Result<Span, SwizzleFault>
    requires alive { V.alive vault.old }
    requires node { IsNode sw.old at }
    requires span { IsSpan sw.old span }
    ensures narrowed { NarrowsAt (keys_of keys) (place sw.old (V.outside vault.old)) sw.new at span result }
    ensures span { IfOk result (IsSpan sw.new) }
    ensures grows { OnOk result (Grows sw.old sw.new (V.outside vault.old) (V.outside vault.new)) }
    ensures keeps { OnOk result (Keeps sw.old sw.new) }
    ensures still { OnErr result (Grows sw.old sw.new (V.outside vault.old) (V.outside vault.new)) }
    ensures brings { MatchResult result (λ answer. Brings sw.old sw.new 0) (λ fault. Brings sw.old sw.new 1) }
    ensures fetched { FetchesKey (keys_of keys) (place sw.old (V.outside vault.old)) sw.new at result }
    ensures fault { IfErr result (IsNodeFault (V.outside vault.old) (V.outside vault.new) sw.new) }
    ensures numbers { SameNumbers V.used_words V.directory_at V.most_words V.access vault.old vault.new }
    ensures alive { OnOk result (V.alive vault.new) }
{
    let own = match key_of(sw, vault, at, keys) {
        Ok(own) => own,
        Err(fault) => return Err(fault),
    };
    match check_side(sw, at, own, span.high, Ordering::Less) {
        Ok(()) => Ok(narrowed(Ordering::Less, own, span)),
        Err(fault) => Err(fault),
    }
}

/// How a sought key stands to that of a node, and the span of the keys on the side that the search takes.
#[derive(Clone, Copy)]
pub struct Placed {
    pub order: Ordering,
    pub span: Span,
}

/// How a sought key, which lies in a span, stands to that of a node. Where the node's key doesn't lie in it, the node is damaged. Its text is fetched
/// where it isn't in the area.
#[inline(always)]
pub fn place_key<V: Vault>(
    sw: &mut Swizzle,
    vault: &mut V,
    at: u32,
    key: Key,
    span: Span,
) -> Result<Placed, SwizzleFault>
    requires alive { V.alive vault.old }
    requires node { IsNode sw.old at }
    requires key { IsKeyHeld sw.old key }
    requires span { IsSpan sw.old span }
    ensures placed { PlacesAt (kind_of key) (place sw.old (V.outside vault.old)) sw.new at (key_in sw.old key) span result }
    ensures span { IfOk result (λ placed. IsSpan sw.new placed.span) }
    ensures equal { IfOk result (λ placed. placed.order ≡ Equal → HasSought sw.new at key) }
    ensures grows { OnOk result (Grows sw.old sw.new (V.outside vault.old) (V.outside vault.new)) }
    ensures keeps { OnOk result (Keeps sw.old sw.new) }
    ensures still { OnErr result (Grows sw.old sw.new (V.outside vault.old) (V.outside vault.new)) }
    ensures brings { MatchResult result (λ answer. Brings sw.old sw.new 0) (λ fault. Brings sw.old sw.new 1) }
    ensures fetched { FetchesKey (kind_of key) (place sw.old (V.outside vault.old)) sw.new at result }
    ensures fault { IfErr result (IsNodeFault (V.outside vault.old) (V.outside vault.new) sw.new) }
    ensures numbers { SameNumbers V.used_words V.directory_at V.most_words V.access vault.old vault.new }
    ensures alive { OnOk result (V.alive vault.new) }
{
    let own = match key_of(sw, vault, at, kind_of_key(key)) {
        Ok(own) => own,
        Err(fault) => return Err(fault),
    };
    let order = compare_keys(sw, key, own);
    match check_span(sw, at, order, own, span) {
        Ok(()) => Ok(Placed {
            order,
            span: narrowed(order, own, span),
        }),
        Err(fault) => Err(fault),
    }
}
