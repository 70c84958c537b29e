ghost use Rattle.std.specs.Prelude.{◌≡◌};
ghost use Rattle.ps_emitter.specs.Instructions.{jump_of};

use ps_base::instr::Instr;

/// A jump over a clause.
#[derive(Clone, Copy)]
pub enum Forward {
    And,
    Or,
    JumpFalse,
    Jump,
}

impl Forward {
    /// The jump to an offset.
    pub fn to(self, t: u32) -> Instr
        ensures { result ≡ jump_of self t }
    {
        match self {
            Forward::And => Instr::And { t },
            Forward::Or => Instr::Or { t },
            Forward::JumpFalse => Instr::JumpFalse { t },
            Forward::Jump => Instr::Jump { t },
        }
    }
}
