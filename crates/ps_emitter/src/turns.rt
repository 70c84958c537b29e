ghost use Rattle.std.specs.Prelude.{◌≡◌, OnOk, if◌then◌else◌};
ghost use Rattle.ps_base.specs.declared.instr.Instr.TheVariants as instr;
ghost use Rattle.ps_emitter.specs.Choices as choice;
ghost use Rattle.ps_emitter.specs.Pieces.{state_of, Puts};
ghost use Rattle.ps_emitter.specs.Instructions.{zeros, turns};

use crate::emitter::{Emitter, sum};
use ps_base::instr::Instr;
use ps_base::line::Line;
use std::alloc::AllocError;

impl Emitter {
    /// Sets the three locals of a scan's turns to zero, of which this is the first.
    pub fn zeros(&mut self, s: u32) -> Result<(), AllocError>
        ensures { OnOk result (Puts (zeros s) (state_of self.old) (state_of self.new)) }
    {
        let second = sum(s, 1)?;
        let third = sum(s, 2)?;
        self.put(Instr::Int { v: 0 })?;
        self.put(Instr::SetM { s })?;
        self.put(Instr::Int { v: 0 })?;
        self.put(Instr::SetM { s: second })?;
        self.put(Instr::Int { v: 0 })?;
        self.put(Instr::SetM { s: third })?;
        Ok(())
    }

    /// The turns of a scan whose table and procedure are in their locals.
    pub fn turns(&mut self, text: bool, q: u32, s: u32, line: Line) -> Result<(), AllocError>
        ensures { OnOk result (Puts (turns text q s line) (state_of self.old) (state_of self.new)) }
    {
        let turn = self.here()?;
        let hole = self.hole(scan_by(text, q, s, 0, line))?;
        self.put(called(text, line))?;
        self.put(Instr::ScanMore { s, t: turn })?;
        let end = self.here()?;
        self.overwrite(hole, scan_by(text, q, s, end, line))?;
        self.put(Instr::GetM { s })?;
        Ok(())
    }
}

// The next key, by strings or by ints.
fn scan_by(text: bool, q: u32, s: u32, t: u32, line: Line) -> Instr
    ensures { result ≡ choice.scan text q s t line }
{
    if text {
        Instr::ScanT { q, s, t, line }
    } else {
        Instr::ScanI { q, s, t, line }
    }
}

// The call of the procedure: a string key is a reference, as the value is.
fn called(text: bool, line: Line) -> Instr
    ensures { result ≡ instr.Call (if text then 2 else 1) line }
{
    let n = if text { 2 } else { 1 };
    Instr::Call { n, line }
}
