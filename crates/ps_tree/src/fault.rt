ghost use Rattle.std.specs.Prelude.{◌≡◌};
ghost use Rattle.ps_tree.specs.declared.fault.ParseFault.TheVariants.{Memory};
ghost use Rattle.ps_tree.specs.Fault.{number_of, line_of_fault};

use ps_base::line::Line;
use std::alloc::{AllocError, AllocFailed};

/// Why a text has no tree. The first fault in the text is answered (`docs/language.md`).
#[derive(Clone, Copy, PartialEq, Eq, Debug)]
pub enum ParseFault {
    /// The tokens up to this one begin no program, and those before it do. `token` is its number,
    /// from 0 on; at the end of the text it is how many tokens there are.
    Unexpected { line: Line, token: u32 },
    /// A token opens the 101st clause or type of those inside one another.
    TooNested { line: Line },
    /// There was no memory for the tree.
    Memory,
}

impl ParseFault {
    /// The fault's number, 1 or 2 in the order of the variants; want of memory has none.
    pub fn number(&self) -> Option<u8>
        ensures { result ≡ number_of self.now }
    {
        match self {
            ParseFault::Unexpected { .. } => Some(1),
            ParseFault::TooNested { .. } => Some(2),
            ParseFault::Memory => None,
        }
    }

    /// The line on which the fault stands; want of memory has none.
    pub fn line(&self) -> Option<Line>
        ensures { result ≡ line_of_fault self.now }
    {
        match *self {
            ParseFault::Unexpected { line, .. } | ParseFault::TooNested { line } => Some(line),
            ParseFault::Memory => None,
        }
    }
}

impl From<AllocError> for ParseFault {
    ghost from_gives = { λ _ fault. fault ≡ Memory };

    fn from(_failed: AllocError) -> ParseFault {
        ParseFault::Memory
    }
}

impl<T: Drop> From<AllocFailed<T>> for ParseFault {
    ghost from_gives = { λ _ fault. fault ≡ Memory };

    fn from(_failed: AllocFailed<T>) -> ParseFault {
        ParseFault::Memory
    }
}
