//! Procedures as values: made of a unit of code and a scope, and taken apart again.
ghost use Rattle.std.specs.Prelude.{◌≡◌, ℕ, List, Option, IfOk, IfSome, OnOk, Some};
ghost use Rattle.ps_base.specs.CodeUnit.{UnitView};
ghost use Rattle.joint_ops.specs.obj_layout.declared.reference.Reference.{Reference};
ghost use Rattle.joint_ops.specs.obj_layout.Storing.{SameNumbers};
ghost use Rattle.joint_ops.specs.proc_values.Loaded.{IsFitUnit};
ghost use Rattle.joint_ops.specs.swizzle.Heap.{IsHeld, header_at};
ghost use Rattle.joint_ops.specs.swizzle.Reading.{LeavesOutside};
ghost use Rattle.joint_ops.specs.swizzle.Touch.{Keeps};
ghost use Rattle.joint_ops.specs.ps_heap.Objects as meaning;
ghost use Rattle.joint_ops.specs.ps_heap.Values as meant;
ghost use Rattle.joint_ops.specs.World.{DenotesIn, DenotesScopeIn, IsUnitIn, IsWorld, FailsAsReading};
ghost use Rattle.joint_ops.specs.Made.{FailsAsMaking};
ghost use Rattle.joint_procedures.specs.Procedures.{AnswersCode, AnswersScope, HasSlot, MakesProcedure};

use joint_ops::obj_layout::kind::Kind;
use joint_ops::obj_layout::vault::Vault;
use joint_ops::swizzle::fault::SwizzleFault;
use joint_ops::swizzle::swizzle::Swizzle;
use scopes::closures::closure;

/// Makes the procedure of a unit whose code object is given, in a scope, or in none. AreaFull exactly where there is no room for its words; then
/// the area stays. The vault is there for the clause alone.
#[inline]
pub fn make_procedure<V: Vault>(
    sw: &mut Swizzle,
    _vault: &V,
    code: u32,
    scope: Option<u32>,
) -> Result<u32, SwizzleFault>
    requires code { IsHeld sw.old code }
    requires scope { IfSome scope (IsHeld sw.old) }
    ensures made { (of : meaning.Heap) (names : List Reference) (unit : UnitView) (within : Option ℕ) → IsWorld sw.old (V.outside _vault.now) of names
        → IsUnitIn sw.old (V.outside _vault.now) code unit → IsFitUnit unit → DenotesScopeIn sw.old (V.outside _vault.now) names scope within
        → MakesProcedure sw.old sw.new (V.outside _vault.now) of names unit within result }
    ensures fails { FailsAsMaking sw.old sw.new result }
    ensures held { IfOk result (IsHeld sw.new) }
    ensures keeps { Keeps sw.old sw.new }
{
    sw.sound();
    let made = closure::make_closure(sw, code, scope);
    sw.sound();
    made
}

/// The code object of the unit of a procedure. What isn't in the area is fetched.
#[inline]
pub fn code_of<V: Vault>(
    sw: &mut Swizzle,
    vault: &mut V,
    procedure: u32,
) -> Result<u32, SwizzleFault>
    requires alive { V.alive vault.old }
    requires held { IsHeld sw.old procedure }
    ensures got { (of : meaning.Heap) (names : List Reference) (unit : UnitView) (within : Option ℕ) → IsWorld sw.old (V.outside vault.old) of names
        → DenotesIn sw.old (V.outside vault.old) names (Some procedure) (meant.Procedure (meant.as_compiled unit) within)
        → AnswersCode sw.old sw.new (V.outside vault.old) (V.outside vault.new) of names unit result }
    ensures held { IfOk result (IsHeld sw.new) }
    ensures code { IfOk result (λ at. (header_at sw.new at).kind ≡ Kind.Code) }
    ensures slot { IfOk result (λ at. HasSlot sw.new procedure 0 (Some at)) }
    ensures keeps { OnOk result (Keeps sw.old sw.new) }
    ensures fails { FailsAsReading (V.outside vault.old) (V.outside vault.new) result }
    ensures leaves { LeavesOutside (V.outside vault.old) (V.outside vault.new) }
    ensures numbers { SameNumbers V.used_words V.directory_at V.most_words V.access vault.old vault.new }
    ensures alive { OnOk result (V.alive vault.new) }
{
    sw.sound();
    let got = closure::code_of(sw, vault, procedure);
    sw.sound();
    got
}

/// The scope that a procedure was made in; None for none. What isn't in the area is fetched.
#[inline]
pub fn scope_of<V: Vault>(
    sw: &mut Swizzle,
    vault: &mut V,
    procedure: u32,
) -> Result<Option<u32>, SwizzleFault>
    requires alive { V.alive vault.old }
    requires held { IsHeld sw.old procedure }
    ensures got { (of : meaning.Heap) (names : List Reference) (unit : UnitView) (within : Option ℕ) → IsWorld sw.old (V.outside vault.old) of names
        → DenotesIn sw.old (V.outside vault.old) names (Some procedure) (meant.Procedure (meant.as_compiled unit) within)
        → AnswersScope sw.old sw.new (V.outside vault.old) (V.outside vault.new) of names within result }
    ensures held { IfOk result (λ to. IfSome to (IsHeld sw.new)) }
    ensures slot { IfOk result (HasSlot sw.new procedure 1) }
    ensures keeps { OnOk result (Keeps sw.old sw.new) }
    ensures fails { FailsAsReading (V.outside vault.old) (V.outside vault.new) result }
    ensures leaves { LeavesOutside (V.outside vault.old) (V.outside vault.new) }
    ensures numbers { SameNumbers V.used_words V.directory_at V.most_words V.access vault.old vault.new }
    ensures alive { OnOk result (V.alive vault.new) }
{
    sw.sound();
    let got = closure::scope_of(sw, vault, procedure);
    sw.sound();
    got
}
