//! Units of code, loaded and read.
ghost use Rattle.std.specs.Prelude.{◌≡◌, ℕ, List, IfErr, IfOk, OnOk};
ghost use Rattle.ps_base.specs.CodeUnit.{ConstantsView, unit, unit_view};
ghost use Rattle.ps_base.specs.declared.code_unit.Frame.{Frame};
ghost use Rattle.heap_meaning.specs.obj_layout.Storing.{SameNumbers};
ghost use Rattle.heap_meaning.specs.proc_values.Units.{IsCut, unit_objects};
ghost use Rattle.heap_meaning.specs.swizzle.Heap.{IsHeld, header_at, top_of};
ghost use Rattle.heap_meaning.specs.swizzle.Reading.{LeavesOutside};
ghost use Rattle.heap_meaning.specs.swizzle.Touch.{Keeps};
ghost use Rattle.joint_ops.specs.World.{IsUnitIn, FailsAsReading};
ghost use Rattle.joint_ops.specs.Code.{LoadsUnit, AnswersConstant, StandsBy};

use heap_meaning::obj_layout::kind::Kind;
use heap_meaning::obj_layout::vault::Vault;
use heap_meaning::proc_values::load::load_unit;
use heap_meaning::proc_values::reading;
use heap_meaning::swizzle::fault::SwizzleFault;
use heap_meaning::swizzle::swizzle::Swizzle;
use ps_base::code_unit::CodeUnit;

/// Makes the objects of a unit, those of its constants first, and answers its code object. AreaFull exactly where there is no room for all of
/// them; those before the one that didn't fit stay until `reset`. The vault is there for the clause alone.
#[inline]
pub fn load<V: Vault>(sw: &mut Swizzle, _vault: &V, unit: &CodeUnit) -> Result<u32, SwizzleFault>
    ensures loaded { LoadsUnit sw.old sw.new (V.outside _vault.now) (unit_view unit.now) result }
    ensures held { IfOk result (IsHeld sw.new) }
    ensures code { IfOk result (λ at. (header_at sw.new at).kind ≡ Kind.Code) }
    ensures keeps { Keeps sw.old sw.new }
    ensures cut { IfErr result (λ fault. IsCut sw.old sw.new (unit_objects (top_of sw.old) (unit_view unit.now)) fault) }
{
    sw.sound();
    let loaded = load_unit(sw, unit);
    sw.sound();
    loaded
}

/// The object of a constant of a code object. Of the code object of a unit it is damaged exactly where the unit has no such constant. What isn't in
/// the area is fetched.
#[inline]
pub fn constant<V: Vault>(
    sw: &mut Swizzle,
    vault: &mut V,
    code: u32,
    index: u32,
) -> Result<u32, SwizzleFault>
    requires alive { V.alive vault.old }
    requires held { IsHeld sw.old code }
    ensures given { (bytes : List ℕ) (constants : ConstantsView) (frame : Frame) → IsUnitIn sw.old (V.outside vault.old) code (unit bytes constants frame)
        → AnswersConstant sw.old sw.new (V.outside vault.old) (V.outside vault.new) code constants index result }
    ensures world { OnOk result (StandsBy sw.old sw.new (V.outside vault.old) (V.outside vault.new) code) }
    ensures keeps { OnOk result (Keeps sw.old sw.new) }
    ensures held { IfOk result (IsHeld sw.new) }
    ensures fails { FailsAsReading (V.outside vault.old) (V.outside vault.new) result }
    ensures leaves { LeavesOutside (V.outside vault.old) (V.outside vault.new) }
    ensures numbers { SameNumbers V.used_words V.directory_at V.most_words V.access vault.old vault.new }
    ensures alive { OnOk result (V.alive vault.new) }
{
    sw.sound();
    let given = reading::constant(sw, vault, code, index);
    sw.sound();
    given
}
