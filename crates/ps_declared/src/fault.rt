ghost use Rattle.std.specs.Prelude.{◌≡◌};
ghost use Rattle.ps_declared.specs.Faults.{number_of, line_of_fault, fault_of};
ghost use Rattle.std.specs.Prelude.{None};

use ps_base::line::Line;
use ps_base::ty::Ty;
use std::alloc::{AllocError, AllocFailed};

/// Why a tree is no program. Of several faults the first in the order of the text is answered (`docs/language.md`).
#[derive(Drop)]
pub enum CheckFault {
    /// A name, a class or a field isn't in scope.
    Unknown { line: Line },
    /// A name or the name of a field is declared a second time in its block.
    Twice { line: Line },
    /// A clause has another type than the one wanted; where several would do, the first of them.
    Mismatch { line: Line, found: Ty, wanted: Ty },
    /// What stands before `:=` is no variable, no element and no field.
    NotAssignable { line: Line },
    /// What is applied is nothing that can be, or has another number of arguments; or a class or a procedure of the library
    /// isn't applied.
    NotApplicable { line: Line },
    /// A structure has more than 64 fields, or a procedure more than 64 parameters: so many.
    Limit { line: Line, count: usize },
    /// A body needs more than 512 slots: so many. It is the fault after all others.
    TooComplex { line: Line, count: u64 },
    /// There was no memory for the tree, or no number left for a further name.
    Memory,
}

impl CheckFault {
    /// The fault's number, 1 to 7 in the order of the variants; want of memory has none.
    pub fn number(&self) -> Option<u8>
        ensures { result ≡ number_of self.now }
    {
        match self {
            CheckFault::Unknown { .. } => Some(1),
            CheckFault::Twice { .. } => Some(2),
            CheckFault::Mismatch { .. } => Some(3),
            CheckFault::NotAssignable { .. } => Some(4),
            CheckFault::NotApplicable { .. } => Some(5),
            CheckFault::Limit { .. } => Some(6),
            CheckFault::TooComplex { .. } => Some(7),
            CheckFault::Memory => None,
        }
    }

    /// The line on which the fault stands; want of memory has none.
    pub fn line(&self) -> Option<Line>
        ensures { result ≡ line_of_fault self.now }
    {
        match self {
            CheckFault::Unknown { line }
            | CheckFault::Twice { line }
            | CheckFault::Mismatch { line, .. }
            | CheckFault::NotAssignable { line }
            | CheckFault::NotApplicable { line }
            | CheckFault::Limit { line, .. }
            | CheckFault::TooComplex { line, .. } => Some(*line),
            CheckFault::Memory => None,
        }
    }
}

impl<T: Drop> From<AllocFailed<T>> for CheckFault {
    ghost from_gives = { λ _ fault. fault_of fault ≡ None };

    fn from(_failed: AllocFailed<T>) -> CheckFault {
        CheckFault::Memory
    }
}

impl From<AllocError> for CheckFault {
    ghost from_gives = { λ _ fault. fault_of fault ≡ None };

    fn from(_failed: AllocError) -> CheckFault {
        CheckFault::Memory
    }
}
