ghost use Rattle.std.specs.Prelude.{◌≡◌, ◌≤◌, ◌*◌, Some, None, OnOk, OnErr, IfOk, IfSome, IfErr};
ghost use Rattle.heap_places.specs.obj_layout.Storing.{SameNumbers};
ghost use Rattle.heap_places.specs.swizzle.Heap.{IsHeld};
ghost use Rattle.heap_places.specs.swizzle.Joint.{name_at};
ghost use Rattle.heap_places.specs.swizzle.Reading.{LeavesOutside};
ghost use Rattle.table_nodes.specs.Bringing.{Brings, NoneCome};
ghost use Rattle.table_nodes.specs.Entering.{EntersAt, IsCountedAt};
ghost use Rattle.table_nodes.specs.Nodes.{IsNode, Grows};
ghost use Rattle.table_nodes.specs.Sought.{IsKeyHeld, kind_of, key_in};
ghost use Rattle.table_nodes.specs.Spans.{IsSpan};
ghost use Rattle.table_nodes.specs.Sparing.{Spares};
ghost use Rattle.table_nodes.specs.Steps.{place, Holds};
ghost use Rattle.table_nodes.specs.Turning.{Balances};
ghost use Rattle.table_nodes.specs.Wings.{IsWingHeld};
ghost use Rattle.table_nodes.specs.Faults.{IsChangeFault};

use crate::keys::Key;
use crate::make::make_node;
use crate::nodes::{height, put};
use crate::opening::open_node;
use crate::sides::Sides;
use crate::span::Span;
use crate::turns::balance;
use crate::wing::{Wing, unknown};
use heap_places::obj_layout::vault::Vault;
use heap_places::places::damaged;
use heap_places::swizzle::fault::SwizzleFault;
use heap_places::swizzle::swizzle::Swizzle;
use std::cmp::Ordering;

/// The root of a tree into which a key was entered, whether the key was new to the tree, and what a turn above looks at where the tree has grown.
#[derive(Clone, Copy)]
pub struct Entered {
    pub root: u32,
    pub made: bool,
    pub wing: Wing,
}

// Gives a node its left side, which a key has entered, and balances it.
fn with_left<V: Vault>(
    sw: &mut Swizzle,
    vault: &V,
    at: u32,
    left: Entered,
    right: Option<u32>,
) -> Entered
    requires at { IsNode sw.old at }
    requires side { IsNode sw.old left.root }
    requires wing { IsWingHeld sw.old left.wing }
    requires other { IfSome right (IsNode sw.old) }
    ensures balanced { Balances (place sw.old (V.outside vault.now)) (place sw.new (V.outside vault.now)) at (Some left.root) right left.wing result.root }
    ensures made { result.made ≡ left.made }
    ensures plain { result.root ≡ at → result.wing ≡ record { sides = Some (record { left = Some left.root; right = right }); left = left.wing.sides; right = None } }
    ensures root { IsNode sw.new result.root }
    ensures known { IsWingHeld sw.new result.wing }
    ensures held { Holds sw.old sw.new }
    ensures spares { Spares sw.old sw.new (V.outside vault.now) (V.outside vault.now) }
    ensures none { NoneCome sw.old sw.new }
{
    let root = balance(sw, vault, at, Some(left.root), right, left.wing);
    if root != at {
        return Entered {
            root,
            made: left.made,
            wing: unknown(),
        };
    }
    Entered {
        root,
        made: left.made,
        wing: Wing {
            sides: Some(Sides {
                left: Some(left.root),
                right,
            }),
            left: left.wing.sides,
            right: None,
        },
    }
}

// Gives a node its right side, which a key has entered, and balances it.
fn with_right<V: Vault>(
    sw: &mut Swizzle,
    vault: &V,
    at: u32,
    left: Option<u32>,
    right: Entered,
) -> Entered
    requires at { IsNode sw.old at }
    requires side { IsNode sw.old right.root }
    requires wing { IsWingHeld sw.old right.wing }
    requires other { IfSome left (IsNode sw.old) }
    ensures balanced { Balances (place sw.old (V.outside vault.now)) (place sw.new (V.outside vault.now)) at left (Some right.root) right.wing result.root }
    ensures made { result.made ≡ right.made }
    ensures plain { result.root ≡ at → result.wing ≡ record { sides = Some (record { left = left; right = Some right.root }); left = None; right = right.wing.sides } }
    ensures root { IsNode sw.new result.root }
    ensures known { IsWingHeld sw.new result.wing }
    ensures held { Holds sw.old sw.new }
    ensures spares { Spares sw.old sw.new (V.outside vault.now) (V.outside vault.now) }
    ensures none { NoneCome sw.old sw.new }
{
    let root = balance(sw, vault, at, left, Some(right.root), right.wing);
    if root != at {
        return Entered {
            root,
            made: right.made,
            wing: unknown(),
        };
    }
    Entered {
        root,
        made: right.made,
        wing: Wing {
            sides: Some(Sides {
                left,
                right: Some(right.root),
            }),
            left: None,
            right: right.wing.sides,
        },
    }
}

/// Enters a key with a value into the tree of a root: a new node where the tree hasn't the key, else the value of its node is replaced. It goes
/// down by calls, each for a lower height than the one before, so at most `bound` deep, and the keys on its way lie in the span, else a node is damaged.
/// All that can fail comes before the first write.
pub fn enter<V: Vault>(
    sw: &mut Swizzle,
    vault: &mut V,
    root: Option<u32>,
    bound: u64,
    key: Key,
    span: Span,
    value: u32,
) -> Result<Entered, SwizzleFault>
    requires alive { V.alive vault.old }
    requires root { IfSome root (IsNode sw.old) }
    requires some { 1 ≤ bound }
    requires bound { bound ≤ 200 }
    requires key { IsKeyHeld sw.old key }
    requires span { IsSpan sw.old span }
    requires value { IsHeld sw.old value }
    ensures entered { EntersAt (kind_of key) (place sw.old (V.outside vault.old)) (place sw.new (V.outside vault.new)) root bound (key_in sw.old key) span (name_at sw.old value) result }
    ensures counted { IsCountedAt (kind_of key) (place sw.old (V.outside vault.old)) root bound (key_in sw.old key) span result }
    ensures root { IfOk result (λ entered. IsNode sw.new entered.root) }
    ensures known { IfOk result (λ entered. IsWingHeld sw.new entered.wing) }
    ensures held { OnOk result (Holds sw.old sw.new) }
    ensures spares { OnOk result (Spares sw.old sw.new (V.outside vault.old) (V.outside vault.new)) }
    ensures still { OnErr result (Grows sw.old sw.new (V.outside vault.old) (V.outside vault.new)) }
    ensures brings { Brings sw.old sw.new (3 * bound) }
    ensures leaves { OnOk result (LeavesOutside (V.outside vault.old) (V.outside vault.new)) }
    ensures fault { IfErr result (IsChangeFault (V.outside vault.old) (V.outside vault.new) sw.new) }
    ensures numbers { SameNumbers V.used_words V.directory_at V.most_words V.access vault.old vault.new }
    ensures alive { OnOk result (V.alive vault.new) }
{
    sw.sound();
    let Some(at) = root else {
        return match make_node(sw, &*vault, key, value) {
            Ok(root) => Ok(Entered {
                root,
                made: true,
                wing: Wing {
                    sides: Some(Sides {
                        left: None,
                        right: None,
                    }),
                    left: None,
                    right: None,
                },
            }),
            Err(fault) => Err(fault),
        };
    };
    let height = height(sw, &*vault, root);
    if height == 0 || height >= bound {
        return Err(damaged(sw, at, height, bound));
    }
    let opened = match open_node(sw, vault, at, key, span) {
        Ok(opened) => opened,
        Err(fault) => return Err(fault),
    };
    match opened.order {
        Ordering::Less => match enter(sw, vault, opened.left, height, key, opened.span, value) {
            Ok(left) => Ok(with_left(sw, &*vault, at, left, opened.right)),
            Err(fault) => Err(fault),
        },
        Ordering::Equal => {
            put(sw, &*vault, at, value);
            Ok(Entered {
                root: at,
                made: false,
                wing: unknown(),
            })
        }
        Ordering::Greater => match enter(sw, vault, opened.right, height, key, opened.span, value) {
            Ok(right) => Ok(with_right(sw, &*vault, at, opened.left, right)),
            Err(fault) => Err(fault),
        },
    }
}
