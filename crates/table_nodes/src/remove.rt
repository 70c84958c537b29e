ghost use Rattle.std.specs.Prelude.{◌≤◌, ◌+◌, ◌*◌, OnOk, OnErr, IfOk, IfSome, IfErr};
ghost use Rattle.heap_places.specs.obj_layout.Storing.{SameNumbers};
ghost use Rattle.heap_places.specs.swizzle.Reading.{LeavesOutside};
ghost use Rattle.table_nodes.specs.Bringing.{Brings};
ghost use Rattle.table_nodes.specs.Nodes.{IsNode, Grows};
ghost use Rattle.table_nodes.specs.Removing.{IsGoneAt, Merges, Removes, TakesLeast};
ghost use Rattle.table_nodes.specs.Sought.{IsKeyHeld, kind_of, key_in};
ghost use Rattle.table_nodes.specs.Spans.{IsSpan};
ghost use Rattle.table_nodes.specs.Sparing.{Spares};
ghost use Rattle.table_nodes.specs.Steps.{place, Holds};
ghost use Rattle.table_nodes.specs.Faults.{IsNodeFault};

use crate::keys::Key;
use crate::nodes::height;
use crate::opening::open_node;
use crate::span::Span;
use crate::turns::balance;
use crate::wings::{open_left, open_right, open_sides};
use heap_places::obj_layout::vault::Vault;
use heap_places::places::damaged;
use heap_places::swizzle::fault::SwizzleFault;
use heap_places::swizzle::swizzle::Swizzle;
use std::cmp::Ordering;

/// The least node of a tree, and the root of the tree without it.
#[derive(Clone, Copy)]
pub struct Least {
    pub node: u32,
    pub rest: Option<u32>,
}

// Takes the least node out of the tree of a node.
fn take_least<V: Vault>(
    sw: &mut Swizzle,
    vault: &mut V,
    at: u32,
    bound: u64,
) -> Result<Least, SwizzleFault>
    requires alive { V.alive vault.old }
    requires node { IsNode sw.old at }
    requires bound { bound ≤ 200 }
    ensures taken { TakesLeast (place sw.old (V.outside vault.old)) (place sw.new (V.outside vault.new)) at bound result }
    ensures node { IfOk result (λ found. IsNode sw.new found.node) }
    ensures rest { IfOk result (λ found. IfSome found.rest (IsNode sw.new)) }
    ensures held { OnOk result (Holds sw.old sw.new) }
    ensures spares { OnOk result (Spares sw.old sw.new (V.outside vault.old) (V.outside vault.new)) }
    ensures still { OnErr result (Grows sw.old sw.new (V.outside vault.old) (V.outside vault.new)) }
    ensures brings { Brings sw.old sw.new (3 * bound) }
    ensures leaves { OnOk result (LeavesOutside (V.outside vault.old) (V.outside vault.new)) }
    ensures fault { IfErr result (IsNodeFault (V.outside vault.old) (V.outside vault.new) sw.new) }
    ensures numbers { SameNumbers V.used_words V.directory_at V.most_words V.access vault.old vault.new }
    ensures alive { OnOk result (V.alive vault.new) }
{
    sw.sound();
    let height = height(sw, &*vault, Some(at));
    if height == 0 || height >= bound {
        return Err(damaged(sw, at, height, bound));
    }
    let sides = match open_sides(sw, vault, at) {
        Ok(sides) => sides,
        Err(fault) => return Err(fault),
    };
    let Some(below) = sides.left else {
        return Ok(Least {
            node: at,
            rest: sides.right,
        });
    };
    let ready = match open_right(sw, vault, sides.left, sides.right, height) {
        Ok(ready) => ready,
        Err(fault) => return Err(fault),
    };
    let least = match take_least(sw, vault, below, ready.bound) {
        Ok(least) => least,
        Err(fault) => return Err(fault),
    };
    let root = balance(sw, &*vault, at, least.rest, sides.right, ready.wing);
    Ok(Least {
        node: least.node,
        rest: Some(root),
    })
}

// Both sides of a node in one tree, without it.
fn merge_sides<V: Vault>(
    sw: &mut Swizzle,
    vault: &mut V,
    left: Option<u32>,
    right: Option<u32>,
    bound: u64,
) -> Result<Option<u32>, SwizzleFault>
    requires alive { V.alive vault.old }
    requires left { IfSome left (IsNode sw.old) }
    requires right { IfSome right (IsNode sw.old) }
    requires some { 1 ≤ bound }
    requires bound { bound ≤ 200 }
    ensures merged { Merges (place sw.old (V.outside vault.old)) (place sw.new (V.outside vault.new)) left right bound result }
    ensures root { IfOk result (λ root. IfSome root (IsNode sw.new)) }
    ensures held { OnOk result (Holds sw.old sw.new) }
    ensures spares { OnOk result (Spares sw.old sw.new (V.outside vault.old) (V.outside vault.new)) }
    ensures still { OnErr result (Grows sw.old sw.new (V.outside vault.old) (V.outside vault.new)) }
    ensures brings { Brings sw.old sw.new (3 * bound + 1) }
    ensures leaves { OnOk result (LeavesOutside (V.outside vault.old) (V.outside vault.new)) }
    ensures fault { IfErr result (IsNodeFault (V.outside vault.old) (V.outside vault.new) sw.new) }
    ensures numbers { SameNumbers V.used_words V.directory_at V.most_words V.access vault.old vault.new }
    ensures alive { OnOk result (V.alive vault.new) }
{
    let Some(above) = right else {
        return Ok(left);
    };
    let Some(below) = left else {
        return Ok(right);
    };
    let ready = match open_left(sw, vault, right, left, bound) {
        Ok(ready) => ready,
        Err(fault) => return Err(fault),
    };
    let least = match take_least(sw, vault, above, ready.bound) {
        Ok(least) => least,
        Err(fault) => return Err(fault),
    };
    let root = balance(sw, &*vault, least.node, Some(below), least.rest, ready.wing);
    Ok(Some(root))
}

/// The root of a tree out of which a key was taken, and whether the tree had the key.
#[derive(Clone, Copy)]
pub struct Removed {
    pub root: Option<u32>,
    pub gone: bool,
}

/// Takes a key out of the tree of a root, where the tree has it: its node is unlinked, and the next one takes its place. It goes down by calls,
/// each for a lower height than the one before, so at most `bound` deep, and the keys on its way to that of the key lie in the span, else a node is
/// damaged. All that can fail comes before the first write.
pub fn remove<V: Vault>(
    sw: &mut Swizzle,
    vault: &mut V,
    root: Option<u32>,
    bound: u64,
    key: Key,
    span: Span,
) -> Result<Removed, SwizzleFault>
    requires alive { V.alive vault.old }
    requires root { IfSome root (IsNode sw.old) }
    requires bound { bound ≤ 200 }
    requires key { IsKeyHeld sw.old key }
    requires span { IsSpan sw.old span }
    ensures removed { Removes (kind_of key) (place sw.old (V.outside vault.old)) (place sw.new (V.outside vault.new)) root bound (key_in sw.old key) span result }
    ensures counted { IsGoneAt (kind_of key) (place sw.old (V.outside vault.old)) root bound (key_in sw.old key) span result }
    ensures root { IfOk result (λ removed. IfSome removed.root (IsNode sw.new)) }
    ensures held { OnOk result (Holds sw.old sw.new) }
    ensures spares { OnOk result (Spares sw.old sw.new (V.outside vault.old) (V.outside vault.new)) }
    ensures still { OnErr result (Grows sw.old sw.new (V.outside vault.old) (V.outside vault.new)) }
    ensures brings { Brings sw.old sw.new (3 * bound) }
    ensures leaves { OnOk result (LeavesOutside (V.outside vault.old) (V.outside vault.new)) }
    ensures fault { IfErr result (IsNodeFault (V.outside vault.old) (V.outside vault.new) sw.new) }
    ensures numbers { SameNumbers V.used_words V.directory_at V.most_words V.access vault.old vault.new }
    ensures alive { OnOk result (V.alive vault.new) }
{
    sw.sound();
    let Some(at) = root else {
        return Ok(Removed {
            root: None,
            gone: false,
        });
    };
    let height = height(sw, &*vault, root);
    if height == 0 || height >= bound {
        return Err(damaged(sw, at, height, bound));
    }
    let opened = match open_node(sw, vault, at, key, span) {
        Ok(opened) => opened,
        Err(fault) => return Err(fault),
    };
    match opened.order {
        Ordering::Less => {
            let ready = match open_right(sw, vault, opened.left, opened.right, height) {
                Ok(ready) => ready,
                Err(fault) => return Err(fault),
            };
            match remove(sw, vault, opened.left, ready.bound, key, opened.span) {
                Ok(left) => {
                    let root = balance(sw, &*vault, at, left.root, opened.right, ready.wing);
                    Ok(Removed {
                        root: Some(root),
                        gone: left.gone,
                    })
                }
                Err(fault) => Err(fault),
            }
        }
        Ordering::Equal => match merge_sides(sw, vault, opened.left, opened.right, height) {
            Ok(root) => Ok(Removed { root, gone: true }),
            Err(fault) => Err(fault),
        },
        Ordering::Greater => {
            let ready = match open_left(sw, vault, opened.right, opened.left, height) {
                Ok(ready) => ready,
                Err(fault) => return Err(fault),
            };
            match remove(sw, vault, opened.right, ready.bound, key, opened.span) {
                Ok(right) => {
                    let root = balance(sw, &*vault, at, opened.left, right.root, ready.wing);
                    Ok(Removed {
                        root: Some(root),
                        gone: right.gone,
                    })
                }
                Err(fault) => Err(fault),
            }
        }
    }
}
