ghost use Rattle.std.specs.Prelude.{◌≡◌, OnOk};
ghost use Rattle.heap_texts.specs.swizzle.Heap.{IsHeld};
ghost use Rattle.heap_places.specs.Places.{TouchesText};
ghost use Rattle.heap_texts.specs.obj_layout.Storing.{SameNumbers};

use crate::places::damaged;
use heap_texts::obj_layout::kind::Kind;
use heap_texts::obj_layout::vault::Vault;
use heap_texts::swizzle::fault::SwizzleFault;
use heap_texts::swizzle::swizzle::Swizzle;

/// The text that an object refers to first: that of a structure's class, of a scope, or of a vector's type. It is fetched where it isn't in the
/// area. Damaged exactly where the object refers to none, at the object's PID with 0 and 1, or to what is no text, at the PID of that with the
/// number of its kind and 1.
#[inline(always)]
pub fn first_text<V: Vault>(
    sw: &mut Swizzle,
    vault: &mut V,
    object: u32,
) -> Result<u32, SwizzleFault>
    requires alive { V.alive vault.old }
    requires held { IsHeld sw.old object }
    ensures touched { TouchesText sw.old sw.new (V.outside vault.old) (V.outside vault.new) object result }
    ensures numbers { SameNumbers V.used_words V.directory_at V.most_words V.access vault.old vault.new }
    ensures alive { OnOk result (V.alive vault.new) }
{
    sw.sound();
    if sw.refs(object) == 0 {
        return Err(damaged(sw, object, 0, 1));
    }
    match sw.touch_slot(vault, object, 0) {
        Ok(Some(text)) => {
            if sw.is_kind(text, Kind::Text) {
                return Ok(text);
            }
            let number = sw.header(text).kind.number();
            Err(damaged(sw, text, u64::from(number), 1))
        }
        Ok(None) => Err(damaged(sw, object, 0, 1)),
        Err(fault) => Err(fault),
    }
}
