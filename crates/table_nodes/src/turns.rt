ghost use Rattle.std.specs.Prelude.{◌≡◌, IfSome, Some};
ghost use Rattle.table_nodes.specs.Bringing.{NoneCome};
ghost use Rattle.table_nodes.specs.Nodes.{IsNode};
ghost use Rattle.table_nodes.specs.Sparing.{Spares};
ghost use Rattle.table_nodes.specs.Steps.{place, SetsSides, Holds};
ghost use Rattle.table_nodes.specs.Turning.{TurnsInner, TurnsRight, TurnsOuter, TurnsLeft, Balances};
ghost use Rattle.table_nodes.specs.Wings.{AreHeld, IsWingHeld};

use crate::nodes::{height, link};
use crate::sides::Sides;
use crate::wing::Wing;
use heap_places::obj_layout::vault::Vault;
use heap_places::swizzle::swizzle::Swizzle;

// Gives a node these sides.
fn set_sides<V: Vault>(sw: &mut Swizzle, vault: &V, at: u32, left: Option<u32>, right: Option<u32>)
    requires at { IsNode sw.old at }
    requires left { IfSome left (IsNode sw.old) }
    requires right { IfSome right (IsNode sw.old) }
    ensures set { SetsSides (place sw.old (V.outside vault.now)) (place sw.new (V.outside vault.now)) at left right }
    ensures held { Holds sw.old sw.new }
    ensures spares { Spares sw.old sw.new (V.outside vault.now) (V.outside vault.now) }
    ensures none { NoneCome sw.old sw.new }
{
    let height = height(sw, vault, left)
        .max(height(sw, vault, right))
        .saturating_add(1);
    link(sw, vault, at, left, right, height);
}

// Lets the left side go up, where it is higher by two. Where its sides aren't known, which is so of damaged nodes alone, nothing is turned.
fn turn_right<V: Vault>(
    sw: &mut Swizzle,
    vault: &V,
    at: u32,
    left: u32,
    right: Option<u32>,
    wing: Wing,
) -> u32
    requires at { IsNode sw.old at }
    requires left { IsNode sw.old left }
    requires right { IfSome right (IsNode sw.old) }
    requires wing { IsWingHeld sw.old wing }
    ensures turned { TurnsRight (place sw.old (V.outside vault.now)) (place sw.new (V.outside vault.now)) at left right wing result }
    ensures root { IsNode sw.new result }
    ensures held { Holds sw.old sw.new }
    ensures spares { Spares sw.old sw.new (V.outside vault.now) (V.outside vault.now) }
    ensures none { NoneCome sw.old sw.new }
{
    let Some(sides) = wing.sides else {
        set_sides(sw, vault, at, Some(left), right);
        return at;
    };
    if height(sw, vault, sides.left) < height(sw, vault, sides.right) {
        return turn_inner(sw, vault, at, left, right, sides, wing.right);
    }
    set_sides(sw, vault, at, sides.right, right);
    set_sides(sw, vault, left, sides.left, Some(at));
    left
}

// Lets the right side of the left side go up.
fn turn_inner<V: Vault>(
    sw: &mut Swizzle,
    vault: &V,
    at: u32,
    left: u32,
    right: Option<u32>,
    sides: Sides,
    ends: Option<Sides>,
) -> u32
    requires at { IsNode sw.old at }
    requires left { IsNode sw.old left }
    requires right { IfSome right (IsNode sw.old) }
    requires sides { AreHeld sw.old sides }
    requires ends { IfSome ends (AreHeld sw.old) }
    ensures turned { TurnsInner (place sw.old (V.outside vault.now)) (place sw.new (V.outside vault.now)) at left right sides ends result }
    ensures root { IsNode sw.new result }
    ensures held { Holds sw.old sw.new }
    ensures spares { Spares sw.old sw.new (V.outside vault.now) (V.outside vault.now) }
    ensures none { NoneCome sw.old sw.new }
{
    let Some(middle) = sides.right else {
        set_sides(sw, vault, at, Some(left), right);
        return at;
    };
    let Some(ends) = ends else {
        set_sides(sw, vault, at, Some(left), right);
        return at;
    };
    set_sides(sw, vault, left, sides.left, ends.left);
    set_sides(sw, vault, at, ends.right, right);
    set_sides(sw, vault, middle, Some(left), Some(at));
    middle
}

// Lets the right side go up, where it is higher by two. Where its sides aren't known, which is so of damaged nodes alone, nothing is turned.
fn turn_left<V: Vault>(
    sw: &mut Swizzle,
    vault: &V,
    at: u32,
    left: Option<u32>,
    right: u32,
    wing: Wing,
) -> u32
    requires at { IsNode sw.old at }
    requires left { IfSome left (IsNode sw.old) }
    requires right { IsNode sw.old right }
    requires wing { IsWingHeld sw.old wing }
    ensures turned { TurnsLeft (place sw.old (V.outside vault.now)) (place sw.new (V.outside vault.now)) at left right wing result }
    ensures root { IsNode sw.new result }
    ensures held { Holds sw.old sw.new }
    ensures spares { Spares sw.old sw.new (V.outside vault.now) (V.outside vault.now) }
    ensures none { NoneCome sw.old sw.new }
{
    let Some(sides) = wing.sides else {
        set_sides(sw, vault, at, left, Some(right));
        return at;
    };
    if height(sw, vault, sides.right) < height(sw, vault, sides.left) {
        return turn_outer(sw, vault, at, left, right, sides, wing.left);
    }
    set_sides(sw, vault, at, left, sides.left);
    set_sides(sw, vault, right, Some(at), sides.right);
    right
}

// Lets the left side of the right side go up.
fn turn_outer<V: Vault>(
    sw: &mut Swizzle,
    vault: &V,
    at: u32,
    left: Option<u32>,
    right: u32,
    sides: Sides,
    ends: Option<Sides>,
) -> u32
    requires at { IsNode sw.old at }
    requires left { IfSome left (IsNode sw.old) }
    requires right { IsNode sw.old right }
    requires sides { AreHeld sw.old sides }
    requires ends { IfSome ends (AreHeld sw.old) }
    ensures turned { TurnsOuter (place sw.old (V.outside vault.now)) (place sw.new (V.outside vault.now)) at left right sides ends result }
    ensures root { IsNode sw.new result }
    ensures held { Holds sw.old sw.new }
    ensures spares { Spares sw.old sw.new (V.outside vault.now) (V.outside vault.now) }
    ensures none { NoneCome sw.old sw.new }
{
    let Some(middle) = sides.left else {
        set_sides(sw, vault, at, left, Some(right));
        return at;
    };
    let Some(ends) = ends else {
        set_sides(sw, vault, at, left, Some(right));
        return at;
    };
    set_sides(sw, vault, at, left, ends.left);
    set_sides(sw, vault, right, ends.right, sides.right);
    set_sides(sw, vault, middle, Some(at), Some(right));
    middle
}

/// Gives a node these sides, and lets one go up where it is higher by two. Answers the root. It looks at no node that isn't handed in, so it can't
/// fail.
pub fn balance<V: Vault>(
    sw: &mut Swizzle,
    vault: &V,
    at: u32,
    left: Option<u32>,
    right: Option<u32>,
    wing: Wing,
) -> u32
    requires at { IsNode sw.old at }
    requires left { IfSome left (IsNode sw.old) }
    requires right { IfSome right (IsNode sw.old) }
    requires wing { IsWingHeld sw.old wing }
    ensures balanced { Balances (place sw.old (V.outside vault.now)) (place sw.new (V.outside vault.now)) at left right wing result }
    ensures root { IsNode sw.new result }
    ensures held { Holds sw.old sw.new }
    ensures spares { Spares sw.old sw.new (V.outside vault.now) (V.outside vault.now) }
    ensures none { NoneCome sw.old sw.new }
{
    let before = height(sw, vault, left);
    let after = height(sw, vault, right);
    if before.saturating_sub(after) > 1 {
        return match left {
            Some(left) => turn_right(sw, vault, at, left, right, wing),
            None => at,
        };
    }
    if after.saturating_sub(before) > 1 {
        return match right {
            Some(right) => turn_left(sw, vault, at, left, right, wing),
            None => at,
        };
    }
    set_sides(sw, vault, at, left, right);
    at
}
