ghost use Rattle.std.specs.Prelude.{◌≡◌, ◌+◌, [], IfOk, OnOk};
ghost use Rattle.ps_base.specs.CodeUnit.{constant_view, constants_view, unit, unit_view};
ghost use Rattle.ps_base.specs.Instr.{spelling, IsInstr};
ghost use Rattle.ps_emitter.specs.Pieces.{state_of, Puts, Hole, empty, one, takes, constant, at_end, next, over, fill as fill_of};

use ps_base::bytes::Bytes;
use ps_base::code_unit::{CodeUnit, Constant, Frame};
use ps_base::instr::Instr;
use ps_base::list::List;
use ps_code::encode::encode;
use std::alloc::{AllocError, Global};

/// What was made of a body so far: its code, its constants, and how many locals of each stack its clauses took.
#[derive(Drop)]
pub struct Emitter {
    pub alloc: Global,
    pub code: Vec<u8>,
    pub constants: Vec<Constant>,
    pub nums: u32,
    pub refs: u32,
}

impl Emitter {
    /// Of which nothing is made yet.
    pub fn new(alloc: Global) -> Emitter
        ensures { state_of result ≡ record { code = []; constants = []; nums = 0; refs = 0 } }
    {
        Emitter {
            alloc,
            code: Vec::new(alloc),
            constants: Vec::new(alloc),
            nums: 0,
            refs: 0,
        }
    }

    /// The unit of what was made, with this frame.
    pub fn into_unit(self, frame: Frame) -> CodeUnit
        ensures { unit_view result ≡ unit self.code.items (constants_view self.constants.items) frame }
    {
        let Emitter {
            alloc: _,
            code,
            constants,
            nums: _,
            refs: _,
        } = self;
        CodeUnit {
            code: Bytes::new(code),
            constants: List::new(constants),
            frame,
        }
    }

    /// Puts an instruction.
    pub fn put(&mut self, instr: Instr) -> Result<(), AllocError>
        ensures { OnOk result (Puts (one instr) (state_of self.old) (state_of self.new)) }
    {
        let mut buffer = [0; 17];
        let width = encode(instr, &mut buffer);
        self.code.extend_from_slice(&buffer[..width])?;
        Ok(())
    }

    /// Puts a constant.
    pub fn add(&mut self, it: Constant) -> Result<(), AllocError>
        ensures { OnOk result (Puts (constant (constant_view it)) (state_of self.old) (state_of self.new)) }
    {
        self.constants.push(it)?;
        Ok(())
    }

    /// Puts nothing.
    pub fn nothing(&mut self) -> Result<(), AllocError>
        ensures { OnOk result (Puts empty (state_of self.old) (state_of self.new)) }
    {
        Ok(())
    }

    /// Takes locals.
    pub fn take(&mut self, nums: u32, refs: u32) -> Result<(), AllocError>
        ensures { OnOk result (Puts (takes nums refs) (state_of self.old) (state_of self.new)) }
    {
        self.nums = sum(self.nums, nums)?;
        self.refs = sum(self.refs, refs)?;
        Ok(())
    }

    /// The offset after what was made so far.
    pub fn here(&self) -> Result<u32, AllocError>
        ensures { IfOk result (λ at. at ≡ at_end (state_of self.now)) }
    {
        number(self.code.len())
    }

    /// The number of the next constant.
    pub fn named(&self) -> Result<u32, AllocError>
        ensures { IfOk result (λ k. k ≡ next (state_of self.now)) }
    {
        number(self.constants.len())
    }

    /// Puts an instruction whose target is missing, and answers its offset.
    pub fn hole(&mut self, instr: Instr) -> Result<u32, AllocError>
        ensures { IfOk result (λ at. Hole (one instr) at (state_of self.old) (state_of self.new)) }
    {
        let at = self.here()?;
        self.put(instr)?;
        Ok(at)
    }

    /// Writes an instruction over another of its width.
    pub fn overwrite(&mut self, at: u32, instr: Instr) -> Result<(), AllocError>
        ensures written { OnOk result (state_of self.new ≡ record (state_of self.old) { code = over at (spelling instr) self.old.code.items }) }
        ensures fits { IsInstr instr }
    {
        let mut buffer = [0; 17];
        let width = encode(instr, &mut buffer);
        write_over(&mut self.code, at as usize, &buffer[..width])?;
        Ok(())
    }

    /// Writes an instruction over each of these.
    pub fn fill(&mut self, holes: &[u32], instr: Instr) -> Result<(), AllocError>
        ensures written { OnOk result (state_of self.new ≡ fill_of (spelling instr) holes.now (state_of self.old)) }
        ensures fits { IsInstr instr }
    {
        let mut buffer = [0; 17];
        encode(instr, &mut buffer);
        for hole in holes {
            self.overwrite(*hole, instr)?;
        }
        Ok(())
    }
}

// Writes bytes over those at a place, which are there.
fn write_over(code: &mut Vec<u8>, at: usize, bytes: &[u8]) -> Result<(), AllocError>
    ensures { OnOk result (code.new.items ≡ over at bytes.now code.old.items) }
{
    match code.len().checked_sub(at) {
        Some(behind) if bytes.len() <= behind => {
            code[at..at + bytes.len()].copy_from_slice(bytes);
            Ok(())
        }
        _ => Err(AllocError),
    }
}

/// A number of 32 bits.
pub fn number(count: usize) -> Result<u32, AllocError>
    ensures { IfOk result (λ made. made ≡ count) }
{
    match u32::try_from(count) {
        Ok(made) => Ok(made),
        Err(_) => Err(AllocError),
    }
}

/// The sum of two numbers of 32 bits.
pub fn sum(a: u32, b: u32) -> Result<u32, AllocError>
    ensures { IfOk result (λ made. made ≡ a + b) }
{
    match a.checked_add(b) {
        Some(made) => Ok(made),
        None => Err(AllocError),
    }
}
