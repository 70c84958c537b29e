//! Code objects and the instructions in them.
ghost use Rattle.std.specs.Prelude.{◌≡◌};
ghost use Rattle.joint_ops.specs.proc_values.Reading.{IsInstrIn, IsPlaceOf};
ghost use Rattle.joint_ops.specs.swizzle.Heap.{IsHeld, header_at};
ghost use Rattle.joint_ops.specs.swizzle.Text.{text_at};

use super::Objects;
use joint_ops::obj_layout::kind::Kind;
use joint_ops::proc_values::reading::{self, CodePlace};
use ps_base::instr::Instr;

impl Objects {
    /// Where the bytes of a code object lie, and how many they are.
    #[inline]
    pub fn code_place(&self, code: u32) -> CodePlace
        requires held { IsHeld self.now code }
        requires kind { (header_at self.now code).kind ≡ Kind.Code }
        ensures { IsPlaceOf self.now code result }
    {
        reading::code_place(&self.sw, code)
    }

    /// The instruction at an offset of a code object whose bytes lie in a known place, and the offset after it; None exactly where no instruction is
    /// spelled there. The object isn't looked at.
    #[inline(always)]
    pub fn instr_within(&self, code: u32, place: CodePlace, at: u32) -> Option<(Instr, u32)>
        requires { IsPlaceOf self.now code place }
        ensures { IsInstrIn (text_at self.now code) at result }
    {
        reading::instr_within(&self.sw, code, place, at)
    }
}
