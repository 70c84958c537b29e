//! The calls of the library on databases, among the instructions.
ghost use Rattle.session_run.specs.inside.Calls.{IsCall};

use ps_base::instr::Instr;

#[derive(Clone, Copy)]
pub enum DatabaseCall {
    Create,
    Open,
    Commit,
}

/// Which call on databases an instruction is, if it is one.
#[inline(always)]
pub fn database_call(instr: Instr) -> Option<DatabaseCall>
    ensures { IsCall instr result }
{
    match instr {
        Instr::Lib { k, line: _ } => match k {
            0 => Some(DatabaseCall::Create),
            1 => Some(DatabaseCall::Open),
            2 => Some(DatabaseCall::Commit),
            _ => None,
        },
        _ => None,
    }
}
