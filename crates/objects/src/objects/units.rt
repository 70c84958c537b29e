//! Units of code, loaded and read.
ghost use Rattle.std.specs.Prelude.{◌≡◌, ℕ, List, IfErr, IfOk, IfSome, OnOk};
ghost use Rattle.ps_base.specs.CodeUnit.{ConstantsView, unit, unit_view};
ghost use Rattle.ps_base.specs.declared.code_unit.Frame.{Frame as Numbers};
ghost use Rattle.joint_ops.specs.obj_layout.Storing.{SameNumbers};
ghost use Rattle.joint_ops.specs.proc_values.Loaded.{IsFitUnit};
ghost use Rattle.joint_ops.specs.proc_values.Units.{IsCut, unit_objects};
ghost use Rattle.joint_ops.specs.swizzle.Heap.{IsHeld, header_at, num_at, top_of};
ghost use Rattle.joint_ops.specs.swizzle.Reading.{LeavesOutside};
ghost use Rattle.joint_ops.specs.swizzle.Touch.{Keeps};
ghost use Rattle.joint_ops.specs.World.{IsUnitIn, FailsAsReading};
ghost use Rattle.joint_ops.specs.Code.{LoadsUnit, AnswersConstant, StandsBy};
ghost use Rattle.joint_procedures.specs.Units.{AnswersLiteral, AnswersText, IsFrameIn};

use super::Objects;
use joint_ops::code;
use joint_ops::obj_layout::kind::Kind;
use joint_ops::obj_layout::vault::Vault;
use joint_ops::swizzle::fault::SwizzleFault;
use joint_procedures::unit;
use ps_base::code_unit::{CodeUnit, Frame};

impl Objects {
    /// Makes the objects of a unit, those of its constants first, and answers its code object. AreaFull exactly where there is no room for all of
    /// them; those before the one that didn't fit stay until `reset`.
    #[inline]
    pub fn load<V: Vault>(&mut self, vault: &V, unit: &CodeUnit) -> Result<u32, SwizzleFault>
        ensures loaded { LoadsUnit self.old self.new (V.outside vault.now) (unit_view unit.now) result }
        ensures held { IfOk result (IsHeld self.new) }
        ensures code { IfOk result (λ at. (header_at self.new at).kind ≡ Kind.Code) }
        ensures keeps { Keeps self.old self.new }
        ensures cut { IfErr result (λ fault. IsCut self.old self.new (unit_objects (top_of self.old) (unit_view unit.now)) fault) }
    {
        code::load(&mut self.sw, vault, unit)
    }

    /// The object of a constant of a code object. Of the code object of a unit it is damaged exactly where the unit has no such constant. What isn't in
    /// the area is fetched.
    #[inline]
    pub fn constant<V: Vault>(
        &mut self,
        vault: &mut V,
        code: u32,
        index: u32,
    ) -> Result<u32, SwizzleFault>
        requires alive { V.alive vault.old }
        requires held { IsHeld self.old code }
        ensures given { (bytes : List ℕ) (constants : ConstantsView) (frame : Numbers) → IsUnitIn self.old (V.outside vault.old) code (unit bytes constants frame)
            → AnswersConstant self.old self.new (V.outside vault.old) (V.outside vault.new) code constants index result }
        ensures world { OnOk result (StandsBy self.old self.new (V.outside vault.old) (V.outside vault.new) code) }
        ensures keeps { OnOk result (Keeps self.old self.new) }
        ensures held { IfOk result (IsHeld self.new) }
        ensures fails { FailsAsReading (V.outside vault.old) (V.outside vault.new) result }
        ensures leaves { LeavesOutside (V.outside vault.old) (V.outside vault.new) }
        ensures numbers { SameNumbers V.used_words V.directory_at V.most_words V.access vault.old vault.new }
        ensures alive { OnOk result (V.alive vault.new) }
    {
        let got = code::constant(&mut self.sw, vault, code, index);
        match got {
            Ok(given) => Ok(given),
            Err(fault) => {
                self.known.clear();
                Err(fault)
            }
        }
    }

    /// The frame of a unit whose code object is given, whatever the vault.
    #[inline]
    pub fn frame_of<V: Vault>(&self, code: u32) -> Frame
        requires held { IsHeld self.now code }
        requires kind { (header_at self.now code).kind ≡ Kind.Code }
        ensures word { IsFrameIn (num_at self.now code 1) result }
        ensures value { (vault : V) (bytes : List ℕ) (row : ConstantsView) (frame : Numbers) → IsUnitIn self.now (V.outside vault) code (unit bytes row frame)
            → IsFitUnit (unit bytes row frame) → result ≡ frame }
    {
        unit::frame_of::<V>(&self.sw, code)
    }

    /// The code object of the unit that is the constant of this number of a code object, None where the constant is a text. Of the code object of a unit
    /// it is damaged exactly where the unit has no such constant. What isn't in the area is fetched.
    #[inline]
    pub fn literal_of<V: Vault>(
        &mut self,
        vault: &mut V,
        code: u32,
        index: u32,
    ) -> Result<Option<u32>, SwizzleFault>
        requires alive { V.alive vault.old }
        requires held { IsHeld self.old code }
        ensures given { (bytes : List ℕ) (row : ConstantsView) (frame : Numbers) → IsUnitIn self.old (V.outside vault.old) code (unit bytes row frame)
            → IsFitUnit (unit bytes row frame) → AnswersLiteral self.old self.new (V.outside vault.old) (V.outside vault.new) code row index result }
        ensures world { OnOk result (StandsBy self.old self.new (V.outside vault.old) (V.outside vault.new) code) }
        ensures held { IfOk result (λ to. IfSome to (IsHeld self.new)) }
        ensures code { IfOk result (λ to. IfSome to (λ at. (header_at self.new at).kind ≡ Kind.Code)) }
        ensures keeps { OnOk result (Keeps self.old self.new) }
        ensures fails { FailsAsReading (V.outside vault.old) (V.outside vault.new) result }
        ensures leaves { LeavesOutside (V.outside vault.old) (V.outside vault.new) }
        ensures numbers { SameNumbers V.used_words V.directory_at V.most_words V.access vault.old vault.new }
        ensures alive { OnOk result (V.alive vault.new) }
    {
        let got = unit::literal_of(&mut self.sw, vault, code, index);
        match got {
            Ok(given) => Ok(given),
            Err(fault) => {
                self.known.clear();
                Err(fault)
            }
        }
    }

    /// The object of the text that is the constant of this number of a code object, None where the constant is a unit. Of the code object of a unit it is
    /// damaged exactly where the unit has no such constant. What isn't in the area is fetched.
    #[inline]
    pub fn text_of<V: Vault>(
        &mut self,
        vault: &mut V,
        code: u32,
        index: u32,
    ) -> Result<Option<u32>, SwizzleFault>
        requires alive { V.alive vault.old }
        requires held { IsHeld self.old code }
        ensures given { (bytes : List ℕ) (row : ConstantsView) (frame : Numbers) → IsUnitIn self.old (V.outside vault.old) code (unit bytes row frame)
            → AnswersText self.old self.new (V.outside vault.old) (V.outside vault.new) code row index result }
        ensures world { OnOk result (StandsBy self.old self.new (V.outside vault.old) (V.outside vault.new) code) }
        ensures held { IfOk result (λ to. IfSome to (IsHeld self.new)) }
        ensures text { IfOk result (λ to. IfSome to (λ at. (header_at self.new at).kind ≡ Kind.Text)) }
        ensures keeps { OnOk result (Keeps self.old self.new) }
        ensures fails { FailsAsReading (V.outside vault.old) (V.outside vault.new) result }
        ensures leaves { LeavesOutside (V.outside vault.old) (V.outside vault.new) }
        ensures numbers { SameNumbers V.used_words V.directory_at V.most_words V.access vault.old vault.new }
        ensures alive { OnOk result (V.alive vault.new) }
    {
        let got = unit::text_of(&mut self.sw, vault, code, index);
        match got {
            Ok(given) => Ok(given),
            Err(fault) => {
                self.known.clear();
                Err(fault)
            }
        }
    }
}
