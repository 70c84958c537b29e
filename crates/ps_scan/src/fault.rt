ghost use Rattle.std.specs.Prelude.{◌≡◌};
ghost use Rattle.ps_scan.specs.Fault.{number_of, line_of_fault};
ghost use Rattle.ps_scan.specs.declared.fault.ScanFault.TheVariants.{Memory};

use ps_base::line::Line;
use std::alloc::AllocFailed;

/// Why a text has no tokens. Of several faults in a text the first is answered; each has the line
/// on which it stands, and a string that stays open the line of its opening.
#[derive(Clone, Copy, PartialEq, Eq, Debug)]
pub enum ScanFault {
    /// A byte that begins no token, or one that can't stand inside a string.
    BadByte { line: Line, byte: u8 },
    /// A string with no closing `"` before the next newline or the end of the text.
    OpenString { line: Line },
    /// An int above 2147483647.
    IntTooLarge { line: Line },
    /// A byte that stands after `'` in a string and makes no escape with it.
    BadEscape { line: Line, byte: u8 },
    /// A name of more than 64 bytes.
    NameTooLong { line: Line, length: u32 },
    /// A string that spells more than 65,535 bytes.
    StringTooLong { line: Line, length: u32 },
    /// There was no memory for the tokens.
    Memory,
}

impl ScanFault {
    /// The fault's number, from 1 to 6 in the order of the variants; want of memory has none.
    pub fn number(&self) -> Option<u8>
        ensures { result ≡ number_of self.now }
    {
        match self {
            ScanFault::BadByte { .. } => Some(1),
            ScanFault::OpenString { .. } => Some(2),
            ScanFault::IntTooLarge { .. } => Some(3),
            ScanFault::BadEscape { .. } => Some(4),
            ScanFault::NameTooLong { .. } => Some(5),
            ScanFault::StringTooLong { .. } => Some(6),
            ScanFault::Memory => None,
        }
    }

    /// The line on which the fault stands; want of memory has none.
    pub fn line(&self) -> Option<Line>
        ensures { result ≡ line_of_fault self.now }
    {
        match *self {
            ScanFault::BadByte { line, .. }
            | ScanFault::OpenString { line }
            | ScanFault::IntTooLarge { line }
            | ScanFault::BadEscape { line, .. }
            | ScanFault::NameTooLong { line, .. }
            | ScanFault::StringTooLong { line, .. } => Some(line),
            ScanFault::Memory => None,
        }
    }
}

impl<T: Drop> From<AllocFailed<T>> for ScanFault {
    ghost from_gives = { λ _ fault. fault ≡ Memory };

    fn from(_failed: AllocFailed<T>) -> ScanFault {
        ScanFault::Memory
    }
}
