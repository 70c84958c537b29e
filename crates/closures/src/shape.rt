//! Tests of what an object is, and the damage of one that is another.
ghost use Rattle.std.specs.Prelude.{◌≡◌, None, MatchResult};
ghost use Rattle.heap_places.specs.obj_layout.Kind.{kind_number};
ghost use Rattle.heap_places.specs.obj_layout.declared.vault.VaultFault.TheVariants.{Damaged};
ghost use Rattle.heap_places.specs.swizzle.declared.fault.SwizzleFault.TheVariants.{Vault as InVault};
ghost use Rattle.heap_places.specs.swizzle.Heap.{IsHeld, header_at};
ghost use Rattle.heap_places.specs.swizzle.Joint.{shown_at};
ghost use Rattle.heap_places.specs.Places.{NamesDamage};
ghost use Rattle.heap_places.specs.Shapes.{shape_damage};

use heap_places::obj_layout::kind::Kind;
use heap_places::places::damaged;
use heap_places::swizzle::fault::SwizzleFault;
use heap_places::swizzle::swizzle::Swizzle;

/// The fault of an object that isn't of the kind that was wanted: the number of its kind, and of that one, at its PID.
#[inline(never)]
pub fn other_kind(sw: &Swizzle, object: u32, wanted: Kind) -> SwizzleFault
    requires { IsHeld sw.now object }
    ensures { result ≡ InVault (Damaged (header_at sw.now object).pid (kind_number (header_at sw.now object).kind) (kind_number wanted)) }
{
    let number = sw.kind(object).number();
    damaged(sw, object, u64::from(number), u64::from(wanted.number()))
}

/// Tests that an object is of a kind, and has so many references and so many number words, in this order.
#[inline(always)]
pub fn test_shape(
    sw: &Swizzle,
    object: u32,
    kind: Kind,
    refs: u64,
    nums: u64,
) -> Result<(), SwizzleFault>
    requires { IsHeld sw.now object }
    ensures { MatchResult result
        (λ _. shape_damage (shown_at sw.now object) kind refs nums ≡ None)
        (NamesDamage sw.now object (shape_damage (shown_at sw.now object) kind refs nums)) }
{
    sw.sound();
    if !sw.is_kind(object, kind) {
        return Err(other_kind(sw, object, kind));
    }
    let refs_found = u64::from(sw.refs(object));
    if refs_found != refs {
        return Err(damaged(sw, object, refs_found, refs));
    }
    let nums_found = u64::from(sw.nums(object));
    if nums_found != nums {
        return Err(damaged(sw, object, nums_found, nums));
    }
    Ok(())
}
