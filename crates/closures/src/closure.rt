ghost use Rattle.std.specs.Prelude.{◌≡◌, ◌<◌, IfSome, MatchResult, OnOk};
ghost use Rattle.heap_places.specs.swizzle.Heap.{IsFull, IsHeld, IsMade, Stands};
ghost use Rattle.closures.specs.Closures.{TellsCode, TellsScope, closure_of};
ghost use Rattle.closures.specs.inside.Opening.{OpensSlot};
ghost use Rattle.heap_places.specs.obj_layout.Storing.{SameNumbers};

use crate::shape::{other_kind, test_shape};
use heap_places::obj_layout::kind::Kind;
use heap_places::obj_layout::vault::Vault;
use heap_places::places::damaged;
use heap_places::swizzle::fault::SwizzleFault;
use heap_places::swizzle::swizzle::Swizzle;

// The slots of a closure.
const CODE: u32 = 0;

const SCOPE: u32 = 1;

/// Makes the closure of a code object and the scope that it was made in, where there is one. AreaFull exactly where there is no room for its
/// seven words; then the area stays.
pub fn make_closure(sw: &mut Swizzle, code: u32, scope: Option<u32>) -> Result<u32, SwizzleFault>
    requires code { IsHeld sw.old code }
    requires scope { IfSome scope (IsHeld sw.old) }
    ensures made { MatchResult result
        (λ at. IsMade sw.old sw.new at (closure_of code scope))
        (λ fault. IsFull sw.old sw.new 7 fault) }
    ensures stands { Stands sw.old sw.new }
{
    let closure = match sw.make(Kind::Closure, 2, 1, 0) {
        Ok(closure) => closure,
        Err(fault) => return Err(fault),
    };
    sw.set_ref(closure, CODE, Some(code));
    sw.set_ref(closure, SCOPE, scope);
    Ok(closure)
}

/// The code object of a closure. It is fetched where it isn't in the area. Damaged, at the closure's PID, exactly where the object is no closure
/// (found the number of its kind, wanted 5), hasn't two references (found their number, wanted 2) or one number word (found their number,
/// wanted 1), or its code is nil (found 0, wanted 1); and at the PID of what its code should be where that is none (found the number of its
/// kind, wanted 6).
pub fn code_of<V: Vault>(sw: &mut Swizzle, vault: &mut V, closure: u32) -> Result<u32, SwizzleFault>
    requires alive { V.alive vault.old }
    requires held { IsHeld sw.old closure }
    ensures told { TellsCode sw.old sw.new (V.outside vault.old) (V.outside vault.new) closure result }
    ensures numbers { SameNumbers V.used_words V.directory_at V.most_words V.access vault.old vault.new }
    ensures alive { OnOk result (V.alive vault.new) }
{
    match open_slot(sw, vault, closure, CODE) {
        Ok(Some(code)) => {
            if sw.is_kind(code, Kind::Code) {
                return Ok(code);
            }
            Err(other_kind(sw, code, Kind::Code))
        }
        Ok(None) => Err(damaged(sw, closure, 0, 1)),
        Err(fault) => Err(fault),
    }
}

/// The scope of a closure; None for a closure that was made in none. It is fetched where it isn't in the area. Damaged, at the closure's PID,
/// exactly where the object hasn't the shape of a closure, as `code_of` says; and at the PID of what its scope should be where that is none
/// (found the number of its kind, wanted 4).
pub fn scope_of<V: Vault>(
    sw: &mut Swizzle,
    vault: &mut V,
    closure: u32,
) -> Result<Option<u32>, SwizzleFault>
    requires alive { V.alive vault.old }
    requires held { IsHeld sw.old closure }
    ensures told { TellsScope sw.old sw.new (V.outside vault.old) (V.outside vault.new) closure result }
    ensures numbers { SameNumbers V.used_words V.directory_at V.most_words V.access vault.old vault.new }
    ensures alive { OnOk result (V.alive vault.new) }
{
    match open_slot(sw, vault, closure, SCOPE) {
        Ok(Some(scope)) => {
            if sw.is_kind(scope, Kind::Scope) {
                return Ok(Some(scope));
            }
            Err(other_kind(sw, scope, Kind::Scope))
        }
        Ok(None) => Ok(None),
        Err(fault) => Err(fault),
    }
}

// What a slot of a closure denotes.
#[inline]
fn open_slot<V: Vault>(
    sw: &mut Swizzle,
    vault: &mut V,
    closure: u32,
    slot: u32,
) -> Result<Option<u32>, SwizzleFault>
    requires alive { V.alive vault.old }
    requires held { IsHeld sw.old closure }
    requires slot { slot < 2 }
    ensures opened { OpensSlot sw.old sw.new (V.outside vault.old) (V.outside vault.new) closure slot result }
    ensures numbers { SameNumbers V.used_words V.directory_at V.most_words V.access vault.old vault.new }
    ensures alive { OnOk result (V.alive vault.new) }
{
    sw.sound();
    match test_shape(sw, closure, Kind::Closure, 2, 1) {
        Ok(()) => sw.touch_slot(vault, closure, slot),
        Err(fault) => Err(fault),
    }
}
