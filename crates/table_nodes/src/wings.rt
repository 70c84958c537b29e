ghost use Rattle.std.specs.Prelude.{◌≡◌, ◌≤◌, ◌+◌, ◌*◌, ◌-◌, IfOk, IfSome, OnOk, OnErr, MatchResult, IfErr};
ghost use Rattle.heap_places.specs.obj_layout.Storing.{SameNumbers};
ghost use Rattle.heap_places.specs.swizzle.Touch.{Keeps};
ghost use Rattle.table_nodes.specs.Fetching.{FetchesAt, FetchesFrom};
ghost use Rattle.node_rows.specs.Keys.{Keys};
ghost use Rattle.table_nodes.specs.Bringing.{Brings};
ghost use Rattle.table_nodes.specs.Nodes.{IsNode, Grows};
ghost use Rattle.table_nodes.specs.Steps.{place};
ghost use Rattle.table_nodes.specs.Wings.{AreHeld, IsLeftWing, IsRightWing, IsWingHeld, OpensEnds, OpensInner, OpensWing};
ghost use Rattle.table_nodes.specs.Faults.{IsNodeFault};

use crate::nodes::{height, side};
use crate::ready::Ready;
use crate::sides::Sides;
use crate::wing::{Wing, unknown};
use heap_places::obj_layout::vault::Vault;
use heap_places::places::damaged;
use heap_places::swizzle::fault::SwizzleFault;
use heap_places::swizzle::swizzle::Swizzle;

/// The sides of a node. They are fetched where they aren't in the area.
pub fn open_sides<V: Vault>(sw: &mut Swizzle, vault: &mut V, at: u32) -> Result<Sides, SwizzleFault>
    requires alive { V.alive vault.old }
    requires node { IsNode sw.old at }
    ensures held { IfOk result (AreHeld sw.new) }
    ensures ends { OpensEnds (place sw.old (V.outside vault.old)) sw.new at result }
    ensures grows { OnOk result (Grows sw.old sw.new (V.outside vault.old) (V.outside vault.new)) }
    ensures keeps { OnOk result (Keeps sw.old sw.new) }
    ensures still { OnErr result (Grows sw.old sw.new (V.outside vault.old) (V.outside vault.new)) }
    ensures brings { Brings sw.old sw.new 2 }
    ensures fetched { (ks : Keys) → FetchesAt ks (place sw.old (V.outside vault.old)) sw.new at result }
    ensures fault { IfErr result (IsNodeFault (V.outside vault.old) (V.outside vault.new) sw.new) }
    ensures numbers { SameNumbers V.used_words V.directory_at V.most_words V.access vault.old vault.new }
    ensures alive { OnOk result (V.alive vault.new) }
{
    let left = match side(sw, vault, at, 0) {
        Ok(left) => left,
        Err(fault) => return Err(fault),
    };
    let right = match side(sw, vault, at, 1) {
        Ok(right) => right,
        Err(fault) => return Err(fault),
    };
    Ok(Sides { left, right })
}

// The sides of the inner one of two sides, where it is the higher one.
fn open_inner<V: Vault>(
    sw: &mut Swizzle,
    vault: &mut V,
    outer: Option<u32>,
    inner: Option<u32>,
) -> Result<Option<Sides>, SwizzleFault>
    requires alive { V.alive vault.old }
    requires outer { IfSome outer (IsNode sw.old) }
    requires inner { IfSome inner (IsNode sw.old) }
    ensures held { IfOk result (λ ends. IfSome ends (AreHeld sw.new)) }
    ensures ends { OpensInner (place sw.old (V.outside vault.old)) sw.new outer inner result }
    ensures grows { OnOk result (Grows sw.old sw.new (V.outside vault.old) (V.outside vault.new)) }
    ensures keeps { OnOk result (Keeps sw.old sw.new) }
    ensures still { OnErr result (Grows sw.old sw.new (V.outside vault.old) (V.outside vault.new)) }
    ensures brings { Brings sw.old sw.new 2 }
    ensures fetched { FetchesFrom (place sw.old (V.outside vault.old)) sw.new inner result }
    ensures fault { IfErr result (IsNodeFault (V.outside vault.old) (V.outside vault.new) sw.new) }
    ensures numbers { SameNumbers V.used_words V.directory_at V.most_words V.access vault.old vault.new }
    ensures alive { OnOk result (V.alive vault.new) }
{
    sw.sound();
    if height(sw, &*vault, inner) <= height(sw, &*vault, outer) {
        return Ok(None);
    }
    let Some(middle) = inner else {
        return Ok(None);
    };
    match open_sides(sw, vault, middle) {
        Ok(ends) => Ok(Some(ends)),
        Err(fault) => Err(fault),
    }
}

/// What a turn looks at where the left side goes up, if it is the higher one and the other one sinks; it is fetched where it isn't in the area. Both
/// sides are to be lower than `bound`, else the higher one is damaged.
pub fn open_left<V: Vault>(
    sw: &mut Swizzle,
    vault: &mut V,
    low: Option<u32>,
    high: Option<u32>,
    bound: u64,
) -> Result<Ready, SwizzleFault>
    requires alive { V.alive vault.old }
    requires low { IfSome low (IsNode sw.old) }
    requires high { IfSome high (IsNode sw.old) }
    ensures held { IfOk result (λ ready. IsWingHeld sw.new ready.wing) }
    ensures wing { OpensWing (λ ks. IsLeftWing) (place sw.old (V.outside vault.old)) sw.new low high bound result }
    ensures bound { IfOk result (λ ready. ready.bound ≤ bound) }
    ensures grows { OnOk result (Grows sw.old sw.new (V.outside vault.old) (V.outside vault.new)) }
    ensures keeps { OnOk result (Keeps sw.old sw.new) }
    ensures still { OnErr result (Grows sw.old sw.new (V.outside vault.old) (V.outside vault.new)) }
    ensures brings { MatchResult result (λ ready. Brings sw.old sw.new (3 * bound + 1 - 3 * ready.bound)) (λ fault. Brings sw.old sw.new 4) }
    ensures fetched { FetchesFrom (place sw.old (V.outside vault.old)) sw.new high result }
    ensures fault { IfErr result (IsNodeFault (V.outside vault.old) (V.outside vault.new) sw.new) }
    ensures numbers { SameNumbers V.used_words V.directory_at V.most_words V.access vault.old vault.new }
    ensures alive { OnOk result (V.alive vault.new) }
{
    sw.sound();
    let above = height(sw, &*vault, high);
    if above <= height(sw, &*vault, low) {
        return Ok(Ready {
            wing: unknown(),
            bound,
        });
    }
    let Some(at) = high else {
        return Ok(Ready {
            wing: unknown(),
            bound,
        });
    };
    if above >= bound {
        return Err(damaged(sw, at, above, bound));
    }
    let sides = match open_sides(sw, vault, at) {
        Ok(sides) => sides,
        Err(fault) => return Err(fault),
    };
    match open_inner(sw, vault, sides.left, sides.right) {
        Ok(ends) => Ok(Ready {
            wing: Wing {
                sides: Some(sides),
                left: None,
                right: ends,
            },
            bound: above,
        }),
        Err(fault) => Err(fault),
    }
}

/// What a turn looks at where the right side goes up, if it is the higher one and the other one sinks; it is fetched where it isn't in the area. Both
/// sides are to be lower than `bound`, else the higher one is damaged.
pub fn open_right<V: Vault>(
    sw: &mut Swizzle,
    vault: &mut V,
    low: Option<u32>,
    high: Option<u32>,
    bound: u64,
) -> Result<Ready, SwizzleFault>
    requires alive { V.alive vault.old }
    requires low { IfSome low (IsNode sw.old) }
    requires high { IfSome high (IsNode sw.old) }
    ensures held { IfOk result (λ ready. IsWingHeld sw.new ready.wing) }
    ensures wing { OpensWing (λ ks. IsRightWing) (place sw.old (V.outside vault.old)) sw.new low high bound result }
    ensures bound { IfOk result (λ ready. ready.bound ≤ bound) }
    ensures grows { OnOk result (Grows sw.old sw.new (V.outside vault.old) (V.outside vault.new)) }
    ensures keeps { OnOk result (Keeps sw.old sw.new) }
    ensures still { OnErr result (Grows sw.old sw.new (V.outside vault.old) (V.outside vault.new)) }
    ensures brings { MatchResult result (λ ready. Brings sw.old sw.new (3 * bound + 1 - 3 * ready.bound)) (λ fault. Brings sw.old sw.new 4) }
    ensures fetched { FetchesFrom (place sw.old (V.outside vault.old)) sw.new high result }
    ensures fault { IfErr result (IsNodeFault (V.outside vault.old) (V.outside vault.new) sw.new) }
    ensures numbers { SameNumbers V.used_words V.directory_at V.most_words V.access vault.old vault.new }
    ensures alive { OnOk result (V.alive vault.new) }
{
    sw.sound();
    let above = height(sw, &*vault, high);
    if above <= height(sw, &*vault, low) {
        return Ok(Ready {
            wing: unknown(),
            bound,
        });
    }
    let Some(at) = high else {
        return Ok(Ready {
            wing: unknown(),
            bound,
        });
    };
    if above >= bound {
        return Err(damaged(sw, at, above, bound));
    }
    let sides = match open_sides(sw, vault, at) {
        Ok(sides) => sides,
        Err(fault) => return Err(fault),
    };
    match open_inner(sw, vault, sides.right, sides.left) {
        Ok(ends) => Ok(Ready {
            wing: Wing {
                sides: Some(sides),
                left: ends,
                right: None,
            },
            bound: above,
        }),
        Err(fault) => Err(fault),
    }
}
