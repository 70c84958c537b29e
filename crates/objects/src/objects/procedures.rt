//! Procedures as values: made of a unit of code and a scope, and taken apart again.
ghost use Rattle.std.specs.Prelude.{◌≡◌, ℕ, List, Option, IfOk, IfSome, OnOk, Some};
ghost use Rattle.ps_base.specs.CodeUnit.{UnitView};
ghost use Rattle.joint_ops.specs.obj_layout.declared.reference.Reference.{Reference};
ghost use Rattle.joint_ops.specs.obj_layout.Storing.{SameNumbers};
ghost use Rattle.joint_ops.specs.proc_values.Loaded.{IsFitUnit};
ghost use Rattle.joint_ops.specs.proc_values.Reading.{IsPlaceOf};
ghost use Rattle.joint_ops.specs.swizzle.Heap.{IsHeld, header_at};
ghost use Rattle.joint_ops.specs.swizzle.Reading.{LeavesOutside};
ghost use Rattle.joint_ops.specs.swizzle.Touch.{Keeps};
ghost use Rattle.joint_ops.specs.ps_heap.Objects as meaning;
ghost use Rattle.joint_ops.specs.ps_heap.Values as meant;
ghost use Rattle.joint_ops.specs.World.{DenotesIn, DenotesScopeIn, IsUnitIn, IsWorld, FailsAsReading};
ghost use Rattle.joint_ops.specs.Made.{FailsAsMaking};
ghost use Rattle.joint_procedures.specs.Procedures.{AnswersCode, AnswersScope, HasSlot, MakesProcedure};
ghost use Rattle.objects.specs.Bodies.{AnswersBody, HasBody};
ghost use Rattle.objects.specs.Known.{IsRight};

use super::Objects;
use crate::body::{Body, fetch_body};
use crate::known::Known;
use joint_ops::obj_layout::kind::Kind;
use joint_ops::obj_layout::vault::Vault;
use joint_ops::swizzle::fault::SwizzleFault;
use joint_ops::swizzle::swizzle::Swizzle;
use joint_procedures::procedure;

impl Objects {
    /// Makes the procedure of a unit whose code object is given, in a scope, or in none. AreaFull exactly where there is no room for its words; then
    /// the area stays.
    #[inline]
    pub fn make_procedure<V: Vault>(
        &mut self,
        vault: &V,
        code: u32,
        scope: Option<u32>,
    ) -> Result<u32, SwizzleFault>
        requires code { IsHeld self.old code }
        requires scope { IfSome scope (IsHeld self.old) }
        ensures made { (of : meaning.Heap) (names : List Reference) (unit : UnitView) (within : Option ℕ) → IsWorld self.old (V.outside vault.now) of names
            → IsUnitIn self.old (V.outside vault.now) code unit → IsFitUnit unit → DenotesScopeIn self.old (V.outside vault.now) names scope within
            → MakesProcedure self.old self.new (V.outside vault.now) of names unit within result }
        ensures fails { FailsAsMaking self.old self.new result }
        ensures held { IfOk result (IsHeld self.new) }
        ensures keeps { Keeps self.old self.new }
    {
        procedure::make_procedure(&mut self.sw, vault, code, scope)
    }

    /// The code object of the unit of a procedure. What isn't in the area is fetched.
    #[inline]
    pub fn code_of<V: Vault>(&mut self, vault: &mut V, procedure: u32) -> Result<u32, SwizzleFault>
        requires alive { V.alive vault.old }
        requires held { IsHeld self.old procedure }
        ensures got { (of : meaning.Heap) (names : List Reference) (unit : UnitView) (within : Option ℕ) → IsWorld self.old (V.outside vault.old) of names
            → DenotesIn self.old (V.outside vault.old) names (Some procedure) (meant.Procedure (meant.as_compiled unit) within)
            → AnswersCode self.old self.new (V.outside vault.old) (V.outside vault.new) of names unit result }
        ensures held { IfOk result (IsHeld self.new) }
        ensures code { IfOk result (λ at. (header_at self.new at).kind ≡ Kind.Code) }
        ensures slot { IfOk result (λ at. HasSlot self.new procedure 0 (Some at)) }
        ensures keeps { OnOk result (Keeps self.old self.new) }
        ensures fails { FailsAsReading (V.outside vault.old) (V.outside vault.new) result }
        ensures leaves { LeavesOutside (V.outside vault.old) (V.outside vault.new) }
        ensures numbers { SameNumbers V.used_words V.directory_at V.most_words V.access vault.old vault.new }
        ensures alive { OnOk result (V.alive vault.new) }
    {
        let got = procedure::code_of(&mut self.sw, vault, procedure);
        match got {
            Ok(given) => Ok(given),
            Err(fault) => {
                self.known.clear();
                Err(fault)
            }
        }
    }

    /// The scope that a procedure was made in; None for none. What isn't in the area is fetched.
    #[inline]
    pub fn scope_of<V: Vault>(
        &mut self,
        vault: &mut V,
        procedure: u32,
    ) -> Result<Option<u32>, SwizzleFault>
        requires alive { V.alive vault.old }
        requires held { IsHeld self.old procedure }
        ensures got { (of : meaning.Heap) (names : List Reference) (unit : UnitView) (within : Option ℕ) → IsWorld self.old (V.outside vault.old) of names
            → DenotesIn self.old (V.outside vault.old) names (Some procedure) (meant.Procedure (meant.as_compiled unit) within)
            → AnswersScope self.old self.new (V.outside vault.old) (V.outside vault.new) of names within result }
        ensures held { IfOk result (λ to. IfSome to (IsHeld self.new)) }
        ensures slot { IfOk result (HasSlot self.new procedure 1) }
        ensures keeps { OnOk result (Keeps self.old self.new) }
        ensures fails { FailsAsReading (V.outside vault.old) (V.outside vault.new) result }
        ensures leaves { LeavesOutside (V.outside vault.old) (V.outside vault.new) }
        ensures numbers { SameNumbers V.used_words V.directory_at V.most_words V.access vault.old vault.new }
        ensures alive { OnOk result (V.alive vault.new) }
    {
        let got = procedure::scope_of(&mut self.sw, vault, procedure);
        match got {
            Ok(given) => Ok(given),
            Err(fault) => {
                self.known.clear();
                Err(fault)
            }
        }
    }

    /// The body of a procedure. Where its object is no closure, or one of its slots denotes an object of another kind than it must, it is damaged as
    /// `code_of` and `scope_of` say. What isn't in the area is fetched.
    #[inline(always)]
    pub fn body_of<V: Vault>(&mut self, vault: &mut V, procedure: u32) -> Result<Body, SwizzleFault>
        requires alive { V.alive vault.old }
        requires held { IsHeld self.old procedure }
        ensures got { (of : meaning.Heap) (names : List Reference) (unit : UnitView) (within : Option ℕ) → IsWorld self.old (V.outside vault.old) of names
            → DenotesIn self.old (V.outside vault.old) names (Some procedure) (meant.Procedure (meant.as_compiled unit) within)
            → AnswersBody self.old self.new (V.outside vault.old) (V.outside vault.new) of names unit within result }
        ensures body { IfOk result (HasBody self.new procedure) }
        ensures place { IfOk result (λ body. IsPlaceOf self.new body.code body.place) }
        ensures scope { IfOk result (λ body. IfSome body.scope (IsHeld self.new)) }
        ensures keeps { OnOk result (Keeps self.old self.new) }
        ensures fails { FailsAsReading (V.outside vault.old) (V.outside vault.new) result }
        ensures leaves { LeavesOutside (V.outside vault.old) (V.outside vault.new) }
        ensures numbers { SameNumbers V.used_words V.directory_at V.most_words V.access vault.old vault.new }
        ensures alive { OnOk result (V.alive vault.new) }
    {
        self.sw.sound();
        match self.known.procedures.find(procedure) {
            Some(body) => Ok(body),
            None => read_body(&mut self.sw, &mut self.known, vault, procedure),
        }
    }
}

// The body of another procedure, which is read and known from then on.
#[inline(never)]
fn read_body<V: Vault>(
    sw: &mut Swizzle,
    known: &mut Known,
    vault: &mut V,
    procedure: u32,
) -> Result<Body, SwizzleFault>
    requires alive { V.alive vault.old }
    requires held { IsHeld sw.old procedure }
    requires right { IsRight sw.old known.old }
    ensures got { (of : meaning.Heap) (names : List Reference) (unit : UnitView) (within : Option ℕ) → IsWorld sw.old (V.outside vault.old) of names
        → DenotesIn sw.old (V.outside vault.old) names (Some procedure) (meant.Procedure (meant.as_compiled unit) within)
        → AnswersBody sw.old sw.new (V.outside vault.old) (V.outside vault.new) of names unit within result }
    ensures right { IsRight sw.new known.new }
    ensures body { IfOk result (HasBody sw.new procedure) }
    ensures keeps { OnOk result (Keeps sw.old sw.new) }
    ensures fails { FailsAsReading (V.outside vault.old) (V.outside vault.new) result }
    ensures leaves { LeavesOutside (V.outside vault.old) (V.outside vault.new) }
    ensures numbers { SameNumbers V.used_words V.directory_at V.most_words V.access vault.old vault.new }
    ensures alive { OnOk result (V.alive vault.new) }
{
    let got = fetch_body(sw, vault, procedure);
    match got {
        Ok(body) => {
            known.procedures.keep(procedure, body);
            Ok(body)
        }
        Err(fault) => {
            known.clear();
            Err(fault)
        }
    }
}
