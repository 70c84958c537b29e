//! Units of code: the frame of one, and the units among its constants.
ghost use Rattle.std.specs.Prelude.{◌≡◌, ℕ, List, IfOk, IfSome, OnOk};
ghost use Rattle.ps_base.specs.CodeUnit.{ConstantsView, unit};
ghost use Rattle.ps_base.specs.declared.code_unit.Frame.{Frame as Numbers};
ghost use Rattle.joint_ops.specs.obj_layout.Storing.{SameNumbers};
ghost use Rattle.joint_ops.specs.proc_values.Loaded.{IsFitUnit};
ghost use Rattle.joint_ops.specs.swizzle.Heap.{IsHeld, header_at, num_at};
ghost use Rattle.joint_ops.specs.swizzle.Reading.{LeavesOutside};
ghost use Rattle.joint_ops.specs.swizzle.Touch.{Keeps};
ghost use Rattle.joint_ops.specs.World.{IsUnitIn, FailsAsReading};
ghost use Rattle.joint_ops.specs.Code.{StandsBy};
ghost use Rattle.joint_procedures.specs.Units.{AnswersLiteral, AnswersText, IsFrameIn};

use joint_ops::code::constant;
use joint_ops::obj_layout::kind::Kind;
use joint_ops::obj_layout::vault::Vault;
use joint_ops::swizzle::fault::SwizzleFault;
use joint_ops::swizzle::swizzle::Swizzle;
use ps_base::code_unit::Frame;

/// The frame of a unit whose code object is given, whatever the vault.
#[inline]
pub fn frame_of<V: Vault>(sw: &Swizzle, code: u32) -> Frame
    requires held { IsHeld sw.now code }
    requires kind { (header_at sw.now code).kind ≡ Kind.Code }
    ensures word { IsFrameIn (num_at sw.now code 1) result }
    ensures value { (vault : V) (bytes : List ℕ) (row : ConstantsView) (frame : Numbers) → IsUnitIn sw.now (V.outside vault) code (unit bytes row frame)
        → IsFitUnit (unit bytes row frame) → result ≡ frame }
{
    sw.sound();
    frame_in(sw.num(code, 1))
}

// The frame that a word spells, of 16 bits for each number.
#[inline]
fn frame_in(word: u64) -> Frame
    ensures { IsFrameIn word result }
{
    Frame {
        nums: (word % 65_536) as u16,
        refs: (word / 65_536 % 65_536) as u16,
        num_params: (word / 4_294_967_296 % 65_536) as u16,
        ref_params: (word / 281_474_976_710_656) as u16,
    }
}

/// The code object of the unit that is the constant of this number of a code object, None where the constant is a text. Of the code object of a unit
/// it is damaged exactly where the unit has no such constant. What isn't in the area is fetched.
#[inline]
pub fn literal_of<V: Vault>(
    sw: &mut Swizzle,
    vault: &mut V,
    code: u32,
    index: u32,
) -> Result<Option<u32>, SwizzleFault>
    requires alive { V.alive vault.old }
    requires held { IsHeld sw.old code }
    ensures given { (bytes : List ℕ) (row : ConstantsView) (frame : Numbers) → IsUnitIn sw.old (V.outside vault.old) code (unit bytes row frame)
        → IsFitUnit (unit bytes row frame) → AnswersLiteral sw.old sw.new (V.outside vault.old) (V.outside vault.new) code row index result }
    ensures world { OnOk result (StandsBy sw.old sw.new (V.outside vault.old) (V.outside vault.new) code) }
    ensures held { IfOk result (λ to. IfSome to (IsHeld sw.new)) }
    ensures code { IfOk result (λ to. IfSome to (λ at. (header_at sw.new at).kind ≡ Kind.Code)) }
    ensures keeps { OnOk result (Keeps sw.old sw.new) }
    ensures fails { FailsAsReading (V.outside vault.old) (V.outside vault.new) result }
    ensures leaves { LeavesOutside (V.outside vault.old) (V.outside vault.new) }
    ensures numbers { SameNumbers V.used_words V.directory_at V.most_words V.access vault.old vault.new }
    ensures alive { OnOk result (V.alive vault.new) }
{
    let at = match constant(sw, vault, code, index) {
        Ok(at) => at,
        Err(fault) => return Err(fault),
    };
    sw.sound();
    match sw.kind(at) {
        Kind::Code => Ok(Some(at)),
        _ => Ok(None),
    }
}

/// The object of the text that is the constant of this number of a code object, None where the constant is a unit. Of the code object of a unit it is
/// damaged exactly where the unit has no such constant. What isn't in the area is fetched.
#[inline]
pub fn text_of<V: Vault>(
    sw: &mut Swizzle,
    vault: &mut V,
    code: u32,
    index: u32,
) -> Result<Option<u32>, SwizzleFault>
    requires alive { V.alive vault.old }
    requires held { IsHeld sw.old code }
    ensures given { (bytes : List ℕ) (row : ConstantsView) (frame : Numbers) → IsUnitIn sw.old (V.outside vault.old) code (unit bytes row frame)
        → AnswersText sw.old sw.new (V.outside vault.old) (V.outside vault.new) code row index result }
    ensures world { OnOk result (StandsBy sw.old sw.new (V.outside vault.old) (V.outside vault.new) code) }
    ensures held { IfOk result (λ to. IfSome to (IsHeld sw.new)) }
    ensures text { IfOk result (λ to. IfSome to (λ at. (header_at sw.new at).kind ≡ Kind.Text)) }
    ensures keeps { OnOk result (Keeps sw.old sw.new) }
    ensures fails { FailsAsReading (V.outside vault.old) (V.outside vault.new) result }
    ensures leaves { LeavesOutside (V.outside vault.old) (V.outside vault.new) }
    ensures numbers { SameNumbers V.used_words V.directory_at V.most_words V.access vault.old vault.new }
    ensures alive { OnOk result (V.alive vault.new) }
{
    let at = match constant(sw, vault, code, index) {
        Ok(at) => at,
        Err(fault) => return Err(fault),
    };
    sw.sound();
    match sw.kind(at) {
        Kind::Text => Ok(Some(at)),
        _ => Ok(None),
    }
}
