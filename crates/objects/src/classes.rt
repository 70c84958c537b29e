//! Classes by the constants that name them.
ghost use Rattle.std.specs.Prelude.{◌≡◌, ℕ, List, IfOk, OnOk};
ghost use Rattle.ps_base.specs.CodeUnit.{ConstantsView, unit};
ghost use Rattle.ps_base.specs.declared.code_unit.Frame.{Frame};
ghost use Rattle.joint_ops.specs.obj_layout.Storing.{SameNumbers};
ghost use Rattle.joint_ops.specs.proc_values.Reading.{IsDamaged};
ghost use Rattle.joint_ops.specs.swizzle.Heap.{IsHeld, header_at};
ghost use Rattle.joint_ops.specs.swizzle.Reading.{LeavesOutside};
ghost use Rattle.joint_ops.specs.swizzle.Touch.{Keeps};
ghost use Rattle.joint_ops.specs.Code.{StandsBy};
ghost use Rattle.joint_ops.specs.World.{IsUnitIn, FailsAsReading};
ghost use Rattle.objects.specs.Classes.{AnswersClass};

use joint_ops::code::constant as object_of_constant;
use joint_ops::heap_places::places::damaged;
use joint_ops::obj_layout::kind::Kind;
use joint_ops::obj_layout::vault::Vault;
use joint_ops::swizzle::fault::SwizzleFault;
use joint_ops::swizzle::swizzle::Swizzle;
use joint_ops::text_forms::forms::count_places;

/// The text that is the constant of this number of a code object. Of the code object of a unit it is damaged, at that object's PID, exactly where the
/// unit has no text as that constant. What isn't in the area is fetched.
pub(crate) fn class_at<V: Vault>(
    sw: &mut Swizzle,
    vault: &mut V,
    code: u32,
    constant: u32,
) -> Result<u32, SwizzleFault>
    requires alive { V.alive vault.old }
    requires held { IsHeld sw.old code }
    ensures given { (bytes : List ℕ) (row : ConstantsView) (frame : Frame) → IsUnitIn sw.old (V.outside vault.old) code (unit bytes row frame)
        → AnswersClass sw.old sw.new (V.outside vault.old) (V.outside vault.new) code row constant result }
    ensures world { OnOk result (StandsBy sw.old sw.new (V.outside vault.old) (V.outside vault.new) code) }
    ensures held { IfOk result (IsHeld sw.new) }
    ensures text { IfOk result (λ at. (header_at sw.new at).kind ≡ Kind.Text) }
    ensures keeps { OnOk result (Keeps sw.old sw.new) }
    ensures fails { FailsAsReading (V.outside vault.old) (V.outside vault.new) result }
    ensures leaves { LeavesOutside (V.outside vault.old) (V.outside vault.new) }
    ensures numbers { SameNumbers V.used_words V.directory_at V.most_words V.access vault.old vault.new }
    ensures alive { OnOk result (V.alive vault.new) }
{
    let at = match object_of_constant(sw, vault, code, constant) {
        Ok(at) => at,
        Err(fault) => return Err(fault),
    };
    sw.sound();
    match sw.kind(at) {
        Kind::Text => Ok(at),
        other => Err(no_class(sw, code, other)),
    }
}

// A constant of a code object is of another kind than a text.
#[inline(never)]
fn no_class(sw: &Swizzle, code: u32, kind: Kind) -> SwizzleFault
    requires { IsHeld sw.now code }
    ensures { IsDamaged sw.now code result }
{
    damaged(
        sw,
        code,
        u64::from(kind.number()),
        u64::from(Kind::Text.number()),
    )
}

/// The class that a constant of a code object names has no field of this number.
#[inline(never)]
pub(crate) fn no_field(sw: &Swizzle, code: u32, text: u32, field: u32) -> SwizzleFault
    requires code { IsHeld sw.now code }
    requires text { IsHeld sw.now text }
    requires kind { (header_at sw.now text).kind ≡ Kind.Text }
    ensures { IsDamaged sw.now code result }
{
    sw.sound();
    let rows = count_places(sw.text(text));
    damaged(
        sw,
        code,
        u64::from(field),
        u64::from(rows.refs) + u64::from(rows.nums),
    )
}
