ghost use Rattle.std.specs.Prelude.{◌≡◌};
ghost use Rattle.ps_command.specs.inside.Refusal.{stage_of, number_of, line_of_fault};

use ps_base::line::Line;
use ps_causes::ps_reports::Stage;
use ps_causes::ps_scan::ScanFault;
use ps_check::ps_declared::fault::CheckFault;
use ps_tree::fault::ParseFault;

/// Why a text is no program, by the stage that found it. Want of memory may come in any stage.
#[derive(Drop)]
pub enum SourceFault {
    Scan(ScanFault),
    Parse(ParseFault),
    Check(CheckFault),
    Memory,
}

impl SourceFault {
    /// The stage that found it; of want of memory it says nothing.
    pub fn stage(&self) -> Stage
        ensures { result ≡ stage_of self.now }
    {
        match self {
            SourceFault::Scan(_) => Stage::Scan,
            SourceFault::Parse(_) => Stage::Parse,
            SourceFault::Check(_) => Stage::Check,
            SourceFault::Memory => Stage::Check,
        }
    }

    /// The number of the fault in its stage; want of memory has none.
    pub fn number(&self) -> Option<u8>
        ensures { result ≡ number_of self.now }
    {
        match self {
            SourceFault::Scan(fault) => fault.number(),
            SourceFault::Parse(fault) => fault.number(),
            SourceFault::Check(fault) => fault.number(),
            SourceFault::Memory => None,
        }
    }

    /// The line of the fault; want of memory has none.
    pub fn line(&self) -> Option<Line>
        ensures { result ≡ line_of_fault self.now }
    {
        match self {
            SourceFault::Scan(fault) => fault.line(),
            SourceFault::Parse(fault) => fault.line(),
            SourceFault::Check(fault) => fault.line(),
            SourceFault::Memory => None,
        }
    }
}
