//! Bodies of procedures.
ghost use Rattle.std.specs.Prelude.{◌≡◌, ℕ, List, Option, IfOk, IfSome, OnOk, Some};
ghost use Rattle.ps_base.specs.CodeUnit.{ConstantsView, UnitView, unit};
ghost use Rattle.ps_base.specs.declared.code_unit.Frame.{Frame as Numbers};
ghost use Rattle.joint_ops.specs.obj_layout.declared.reference.Reference.{Reference};
ghost use Rattle.joint_ops.specs.obj_layout.Storing.{SameNumbers};
ghost use Rattle.joint_ops.specs.proc_values.Loaded.{IsFitUnit};
ghost use Rattle.joint_ops.specs.swizzle.Heap.{IsHeld, header_at};
ghost use Rattle.joint_ops.specs.swizzle.Reading.{LeavesOutside};
ghost use Rattle.joint_ops.specs.swizzle.Touch.{Keeps};
ghost use Rattle.joint_ops.specs.ps_heap.Objects as meaning;
ghost use Rattle.joint_ops.specs.ps_heap.Values as meant;
ghost use Rattle.joint_ops.specs.World.{DenotesIn, IsUnitIn, IsWorld, FailsAsReading};
ghost use Rattle.objects.specs.Bodies.{AnswersBody, HasBody, HasCode};

use joint_ops::obj_layout::kind::Kind;
use joint_ops::obj_layout::vault::Vault;
use joint_ops::proc_values::reading::{CodePlace, code_place};
use joint_ops::swizzle::fault::SwizzleFault;
use joint_ops::swizzle::swizzle::Swizzle;
use joint_procedures::procedure::{code_of, scope_of};
use joint_procedures::unit::frame_of;
use ps_base::code_unit::Frame;

/// The body of a procedure: its code object, with the place of its bytes and its frame, and the scope that the procedure was made in; None for none.
#[derive(Clone, Copy)]
pub struct Body {
    pub code: u32,
    pub place: CodePlace,
    pub frame: Frame,
    pub scope: Option<u32>,
}

/// The body of a procedure. What isn't in the area is fetched.
pub(crate) fn fetch_body<V: Vault>(
    sw: &mut Swizzle,
    vault: &mut V,
    procedure: u32,
) -> Result<Body, SwizzleFault>
    requires alive { V.alive vault.old }
    requires held { IsHeld sw.old procedure }
    ensures got { (of : meaning.Heap) (names : List Reference) (unit : UnitView) (within : Option ℕ) → IsWorld sw.old (V.outside vault.old) of names
        → DenotesIn sw.old (V.outside vault.old) names (Some procedure) (meant.Procedure (meant.as_compiled unit) within)
        → AnswersBody sw.old sw.new (V.outside vault.old) (V.outside vault.new) of names unit within result }
    ensures body { IfOk result (HasBody sw.new procedure) }
    ensures keeps { OnOk result (Keeps sw.old sw.new) }
    ensures fails { FailsAsReading (V.outside vault.old) (V.outside vault.new) result }
    ensures leaves { LeavesOutside (V.outside vault.old) (V.outside vault.new) }
    ensures numbers { SameNumbers V.used_words V.directory_at V.most_words V.access vault.old vault.new }
    ensures alive { OnOk result (V.alive vault.new) }
{
    let code = match code_of(sw, vault, procedure) {
        Ok(code) => code,
        Err(fault) => return Err(fault),
    };
    sw.sound();
    let scope = match scope_of(sw, vault, procedure) {
        Ok(scope) => scope,
        Err(fault) => return Err(fault),
    };
    sw.sound();
    Ok(body_with::<V>(sw, code, scope))
}

// The body of this code object in this scope.
#[inline(always)]
fn body_with<V: Vault>(sw: &Swizzle, code: u32, scope: Option<u32>) -> Body
    requires held { IsHeld sw.now code }
    requires kind { (header_at sw.now code).kind ≡ Kind.Code }
    ensures code_is { result.code ≡ code }
    ensures scope_is { result.scope ≡ scope }
    ensures code { HasCode sw.now result }
{
    Body {
        code,
        place: code_place(sw, code),
        frame: frame_of::<V>(sw, code),
        scope,
    }
}
