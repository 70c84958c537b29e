ghost use Rattle.std.specs.Prelude.{◌≡◌, ℕ, List, ◌++◌, length, Some};
ghost use Rattle.ps_base.specs.declared.instr.Instr.{Instr};
ghost use Rattle.ps_base.specs.Instr.{parts_of, spelling, width_of, IsInstr};
ghost use Rattle.ps_code.specs.Codes.{IsCode, operand_count};

use crate::decode::decode;
use crate::encode::encode;
use ps_base::instr::Instr;

/// No spelling is the prefix of another's, and no two instructions have the same one.
#[tactic(auto, using(crate::proofs::Makers::one_front))]
pub fn no_spelling_begins_another()
    ensures { (i j : Instr) (a b : List ℕ) → IsInstr i → IsInstr j → spelling i ++ a ≡ spelling j ++ b →
        (i ≡ j) × (a ≡ b) }
{}

/// Each instruction has a code from 1 to 77, and all instructions with a code have as many operands.
#[tactic(auto, using(crate::proofs::Makers::coding))]
pub fn codes_count_operands()
    ensures codes { (i : Instr) → IsCode (parts_of i).code }
    ensures operands { (i : Instr) → length (parts_of i).operands ≡ operand_count (parts_of i).code }
{}

/// What was written is read back, whatever stands after it in the buffer.
pub fn written_is_read(instr: Instr, buffer: &mut [u8; 17]) -> Option<(Instr, usize)>
    ensures { result ≡ Some (instr, width_of instr) }
{
    encode(instr, buffer);
    decode(buffer)
}
