ghost use Rattle.std.specs.Prelude.{◌≡◌, None, Some, IfSome, MatchResult, OnOk};
ghost use Rattle.closures.specs.swizzle.Heap.{IsHeld};
ghost use Rattle.closures.specs.swizzle.Joint.{shown_at};
ghost use Rattle.closures.specs.heap_places.Places.{NamesDamage};
ghost use Rattle.scopes.specs.Way.{GoesOut, HasParent, TellsParent, way_damage};
ghost use Rattle.closures.specs.obj_layout.Storing.{SameNumbers};

use closures::heap_places::places::damaged;
use closures::obj_layout::kind::Kind;
use closures::obj_layout::reference::Reference;
use closures::obj_layout::vault::Vault;
use closures::shape::other_kind;
use closures::swizzle::fault::SwizzleFault;
use closures::swizzle::swizzle::Swizzle;

/// The parent of a scope; None for a scope without one. It is fetched where it isn't in the area, and isn't tested itself. Damaged, at the
/// object's PID, exactly where it is no scope (found the number of its kind, wanted 4) or has fewer than two references (found their number,
/// wanted 2).
#[inline(always)]
pub fn parent_of<V: Vault>(
    sw: &mut Swizzle,
    vault: &mut V,
    scope: u32,
) -> Result<Option<u32>, SwizzleFault>
    requires alive { V.alive vault.old }
    requires held { IsHeld sw.old scope }
    ensures told { TellsParent sw.old sw.new (V.outside vault.old) (V.outside vault.new) scope result }
    ensures numbers { SameNumbers V.used_words V.directory_at V.most_words V.access vault.old vault.new }
    ensures alive { OnOk result (V.alive vault.new) }
{
    match near_parent(sw, vault, scope) {
        Some(parent) => Ok(Some(parent)),
        None => find_parent(sw, vault, scope),
    }
}

// The parent of a scope, where it stands in the area.
#[inline(always)]
fn near_parent<V: Vault>(sw: &Swizzle, vault: &V, scope: u32) -> Option<u32>
    requires { IsHeld sw.now scope }
    ensures { IfSome result (λ parent. HasParent sw.now sw.now (V.outside vault.now) (V.outside vault.now) scope (Some parent)) }
{
    let _ = vault;
    sw.sound();
    if !sw.is_kind(scope, Kind::Scope) {
        return None;
    }
    if sw.refs(scope) < 2 {
        return None;
    }
    match sw.peek(scope, 1) {
        Reference::Local(parent) => Some(parent),
        _ => None,
    }
}

// The parent of a scope, wherever it is, or why there is none.
#[inline(never)]
fn find_parent<V: Vault>(
    sw: &mut Swizzle,
    vault: &mut V,
    scope: u32,
) -> Result<Option<u32>, SwizzleFault>
    requires alive { V.alive vault.old }
    requires held { IsHeld sw.old scope }
    ensures told { TellsParent sw.old sw.new (V.outside vault.old) (V.outside vault.new) scope result }
    ensures numbers { SameNumbers V.used_words V.directory_at V.most_words V.access vault.old vault.new }
    ensures alive { OnOk result (V.alive vault.new) }
{
    sw.sound();
    match test_way(sw, scope) {
        Ok(()) => sw.touch_slot(vault, scope, 1),
        Err(fault) => Err(fault),
    }
}

// Tests that the way may go through an object.
#[inline(always)]
fn test_way(sw: &Swizzle, object: u32) -> Result<(), SwizzleFault>
    requires { IsHeld sw.now object }
    ensures { MatchResult result
        (λ _. way_damage (shown_at sw.now object) ≡ None)
        (NamesDamage sw.now object (way_damage (shown_at sw.now object))) }
{
    sw.sound();
    if !sw.is_kind(object, Kind::Scope) {
        return Err(other_kind(sw, object, Kind::Scope));
    }
    let refs = sw.refs(object);
    if refs < 2 {
        return Err(damaged(sw, object, u64::from(refs), 2));
    }
    Ok(())
}

/// The scope so many levels out from a scope: itself for 0, else the parent of the one that is a level less out. What it answers isn't tested
/// itself. Damaged exactly where one that it leaves is no scope or has fewer than two references, as `parent_of` says, or has no parent (found
/// 0, wanted 1), at the PID of that one. The cost is in line with the levels.
#[inline(always)]
pub fn scope_out<V: Vault>(
    sw: &mut Swizzle,
    vault: &mut V,
    scope: u32,
    up: u32,
) -> Result<u32, SwizzleFault>
    requires alive { V.alive vault.old }
    requires held { IsHeld sw.old scope }
    ensures out { GoesOut sw.old sw.new (V.outside vault.old) (V.outside vault.new) scope up result }
    ensures numbers { SameNumbers V.used_words V.directory_at V.most_words V.access vault.old vault.new }
    ensures alive { OnOk result (V.alive vault.new) }
{
    let mut at = scope;
    for _ in 0..up {
        sw.sound();
        match parent_of(sw, vault, at) {
            Ok(Some(parent)) => at = parent,
            Ok(None) => return Err(damaged(sw, at, 0, 1)),
            Err(fault) => return Err(fault),
        }
    }
    Ok(at)
}
