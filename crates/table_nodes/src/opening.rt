ghost use Rattle.std.specs.Prelude.{OnOk, OnErr, IfOk, IfSome, IfErr};
ghost use Rattle.heap_places.specs.obj_layout.Storing.{SameNumbers};
ghost use Rattle.heap_places.specs.swizzle.Touch.{Keeps};
ghost use Rattle.table_nodes.specs.Fetching.{FetchesAt};
ghost use Rattle.table_nodes.specs.Bringing.{Brings};
ghost use Rattle.table_nodes.specs.Entering.{OpensAt};
ghost use Rattle.table_nodes.specs.Nodes.{IsNode, Grows};
ghost use Rattle.table_nodes.specs.Sought.{IsKeyHeld, kind_of, key_in};
ghost use Rattle.table_nodes.specs.Spans.{IsSpan};
ghost use Rattle.table_nodes.specs.Steps.{place};
ghost use Rattle.table_nodes.specs.Faults.{IsNodeFault};

use crate::keys::Key;
use crate::nodes::side;
use crate::placing::place_key;
use crate::span::Span;
use heap_places::obj_layout::vault::Vault;
use heap_places::swizzle::fault::SwizzleFault;
use heap_places::swizzle::swizzle::Swizzle;
use std::cmp::Ordering;

/// How a key stands to a node, the node's sides, and the span of the keys on the side where the key belongs.
#[derive(Clone, Copy)]
pub struct Opened {
    pub order: Ordering,
    pub left: Option<u32>,
    pub right: Option<u32>,
    pub span: Span,
}

/// How a key stands to a node, and the node's sides, in the area. Where the node's key doesn't lie in the span, the node is damaged.
pub fn open_node<V: Vault>(
    sw: &mut Swizzle,
    vault: &mut V,
    at: u32,
    key: Key,
    span: Span,
) -> Result<Opened, SwizzleFault>
    requires alive { V.alive vault.old }
    requires node { IsNode sw.old at }
    requires key { IsKeyHeld sw.old key }
    requires span { IsSpan sw.old span }
    ensures opens { OpensAt (kind_of key) (place sw.old (V.outside vault.old)) sw.new at (key_in sw.old key) span result }
    ensures span { IfOk result (λ opened. IsSpan sw.new opened.span) }
    ensures left { IfOk result (λ opened. IfSome opened.left (IsNode sw.new)) }
    ensures right { IfOk result (λ opened. IfSome opened.right (IsNode sw.new)) }
    ensures grows { OnOk result (Grows sw.old sw.new (V.outside vault.old) (V.outside vault.new)) }
    ensures keeps { OnOk result (Keeps sw.old sw.new) }
    ensures still { OnErr result (Grows sw.old sw.new (V.outside vault.old) (V.outside vault.new)) }
    ensures brings { Brings sw.old sw.new 2 }
    ensures fetched { FetchesAt (kind_of key) (place sw.old (V.outside vault.old)) sw.new at result }
    ensures fault { IfErr result (IsNodeFault (V.outside vault.old) (V.outside vault.new) sw.new) }
    ensures numbers { SameNumbers V.used_words V.directory_at V.most_words V.access vault.old vault.new }
    ensures alive { OnOk result (V.alive vault.new) }
{
    let placed = match place_key(sw, vault, at, key, span) {
        Ok(placed) => placed,
        Err(fault) => return Err(fault),
    };
    let left = match side(sw, vault, at, 0) {
        Ok(left) => left,
        Err(fault) => return Err(fault),
    };
    let right = match side(sw, vault, at, 1) {
        Ok(right) => right,
        Err(fault) => return Err(fault),
    };
    Ok(Opened {
        order: placed.order,
        left,
        right,
        span: placed.span,
    })
}
