//! The texts and the tables that a directory refers to.
ghost use Rattle.std.specs.Prelude.{◌≡◌, ◌<◌, IfErr, OnOk, MatchResult};
ghost use Rattle.joint_ops.specs.obj_layout.Storing.{SameNumbers};
ghost use Rattle.joint_ops.specs.swizzle.Heap.{IsHeld, header_at};
ghost use Rattle.joint_ops.specs.swizzle.Reading.{FailsReading};
ghost use Rattle.joint_ops.specs.swizzle.Joint.{shown_at};
ghost use Rattle.joint_ops.specs.swizzle.Text.{text_at};
ghost use Rattle.db_dir.specs.Entries.{Compares, GainsBy, IsEntry, IsTextEntry, Misses, MissesText, ReadsSome};

use joint_ops::heap_places::places::damaged;
use joint_ops::obj_layout::kind::Kind;
use joint_ops::obj_layout::vault::Vault;
use joint_ops::swizzle::fault::SwizzleFault;
use joint_ops::swizzle::swizzle::Swizzle;
use text_ops::operators::compare;

/// The object of this kind that a slot refers to. It is fetched where it isn't in the area. Where the slot is nil, the object with the slot is damaged, with 0 and
/// the number of the kind; where it refers to an object of another kind, that one is, with the numbers of both kinds.
pub fn touch_entry<V: Vault>(
    sw: &mut Swizzle,
    vault: &mut V,
    object: u32,
    slot: u32,
    kind: Kind,
) -> Result<u32, SwizzleFault>
    requires alive { V.alive vault.old }
    requires held { IsHeld sw.old object }
    requires below { slot < (header_at sw.old object).refs }
    ensures touched { MatchResult result (IsEntry sw.old sw.new object slot kind) (Misses sw.old sw.new (V.outside vault.old) (V.outside vault.new) object slot kind) }
    ensures reads { OnOk result (ReadsSome sw.old sw.new (V.outside vault.old) (V.outside vault.new)) }
    ensures gains { OnOk result (GainsBy sw.old sw.new (V.outside vault.old) (V.outside vault.new) (shown_at sw.old object).refs) }
    ensures fails { IfErr result (FailsReading (V.outside vault.old) (V.outside vault.new)) }
    ensures numbers { SameNumbers V.used_words V.directory_at V.most_words V.access vault.old vault.new }
    ensures alive { OnOk result (V.alive vault.new) }
{
    sw.sound();
    match sw.touch_slot(vault, object, slot) {
        Ok(Some(to)) => {
            sw.sound();
            if sw.is_kind(to, kind) {
                return Ok(to);
            }
            let number = sw.header(to).kind.number();
            Err(damaged(sw, to, u64::from(number), u64::from(kind.number())))
        }
        Ok(None) => Err(damaged(sw, object, 0, u64::from(kind.number()))),
        Err(fault) => Err(fault),
    }
}

/// The text that a slot refers to, of so many bytes. It is fetched where it isn't in the area. A text of another length is damaged, with its length and the bound
/// that it breaks.
pub fn touch_text<V: Vault>(
    sw: &mut Swizzle,
    vault: &mut V,
    object: u32,
    slot: u32,
    least: u32,
    most: u32,
) -> Result<u32, SwizzleFault>
    requires alive { V.alive vault.old }
    requires held { IsHeld sw.old object }
    requires below { slot < (header_at sw.old object).refs }
    ensures touched { MatchResult result (IsTextEntry sw.old sw.new object slot least most) (MissesText sw.old sw.new (V.outside vault.old) (V.outside vault.new) object slot least most) }
    ensures reads { OnOk result (ReadsSome sw.old sw.new (V.outside vault.old) (V.outside vault.new)) }
    ensures gains { OnOk result (GainsBy sw.old sw.new (V.outside vault.old) (V.outside vault.new) (shown_at sw.old object).refs) }
    ensures fails { IfErr result (FailsReading (V.outside vault.old) (V.outside vault.new)) }
    ensures numbers { SameNumbers V.used_words V.directory_at V.most_words V.access vault.old vault.new }
    ensures alive { OnOk result (V.alive vault.new) }
{
    match touch_entry(sw, vault, object, slot, Kind::Text) {
        Ok(text) => {
            let bytes = sw.text(text).len() as u64;
            if bytes < u64::from(least) {
                return Err(damaged(sw, text, bytes, u64::from(least)));
            }
            if bytes > u64::from(most) {
                return Err(damaged(sw, text, bytes, u64::from(most)));
            }
            Ok(text)
        }
        Err(fault) => Err(fault),
    }
}

/// Whether the text that a slot refers to, of so many bytes, is equal to this text of the area. It is fetched where it isn't in the area, and damaged as for
/// `touch_text`.
pub fn has_text<V: Vault>(
    sw: &mut Swizzle,
    vault: &mut V,
    object: u32,
    slot: u32,
    least: u32,
    most: u32,
    text: u32,
) -> Result<bool, SwizzleFault>
    requires alive { V.alive vault.old }
    requires held { IsHeld sw.old object }
    requires below { slot < (header_at sw.old object).refs }
    requires text_held { IsHeld sw.old text }
    requires text_kind { (header_at sw.old text).kind ≡ Kind.Text }
    ensures compared { MatchResult result (Compares sw.old sw.new object slot least most (text_at sw.old text)) (MissesText sw.old sw.new (V.outside vault.old) (V.outside vault.new) object slot least most) }
    ensures reads { OnOk result (ReadsSome sw.old sw.new (V.outside vault.old) (V.outside vault.new)) }
    ensures gains { OnOk result (GainsBy sw.old sw.new (V.outside vault.old) (V.outside vault.new) (shown_at sw.old object).refs) }
    ensures fails { IfErr result (FailsReading (V.outside vault.old) (V.outside vault.new)) }
    ensures numbers { SameNumbers V.used_words V.directory_at V.most_words V.access vault.old vault.new }
    ensures alive { OnOk result (V.alive vault.new) }
{
    match touch_text(sw, vault, object, slot, least, most) {
        Ok(other) => Ok(compare(sw, other, text).is_eq()),
        Err(fault) => Err(fault),
    }
}
