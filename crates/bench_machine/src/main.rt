//! Runs the loop `while i < n do i := i + 1` on the stack machine, or the same with a call, for a count of the machine instructions that it takes.
#![tactic(auto)]

use anyhow::{Context, Result, bail};
use machine_run::RunEnd;
use machine_run::load::{load, machine};
use machine_run::ps_code::encode::encode;
use machine_run::run::run;
use machine_run::vault_output::Output;
use memory_host::MemoryHost;
use no_store::NoStore;
use ps_base::bytes::Bytes;
use ps_base::code_unit::{CodeUnit, Constant, Frame};
use ps_base::instr::Instr;
use ps_base::line::Line;
use ps_base::list::List;
use std::alloc::{AllocError, Global};
use std::env;

/// The most bytes that the output and its records may take.
const ROOM: u64 = 4_096;

/// The words of the area.
const WORDS: u32 = 8_192;

// Instructions one after the other.
fn code_of(alloc: Global, instrs: &[Instr]) -> Result<Vec<u8>, AllocError> {
    let mut code = Vec::new(alloc);
    for instr in instrs {
        let mut buffer = [0; 17];
        let width = encode(*instr, &mut buffer);
        code.extend_from_slice(&buffer[..width.min(17)])?;
    }
    Ok(code)
}

// A frame with a number and a reference, of which so many numbers are arguments.
fn frame(num_params: u16) -> Frame {
    Frame {
        nums: 1,
        refs: 1,
        num_params,
        ref_params: 0,
    }
}

const LINE: Line = Line(1);

// The loop: a jump to the test, at 25, and at 5 the clause. After the loop the local is written.
fn loop_code(turns: i32) -> [Instr; 12] {
    [
        Instr::Jump { t: 25 },
        Instr::GetM { s: 0 },
        Instr::Int { v: 1 },
        Instr::Add { line: LINE },
        Instr::SetM { s: 0 },
        Instr::GetM { s: 0 },
        Instr::Int { v: turns },
        Instr::LtM,
        Instr::Again { t: 5 },
        Instr::GetM { s: 0 },
        Instr::WriteI { w: 0, line: LINE },
        Instr::Return { k: 0 },
    ]
}

// The same with a call as its clause: a procedure is made first, and the clause stands at 15, the test at 39.
fn call_code(turns: i32) -> [Instr; 14] {
    [
        Instr::Closure { c: 0 },
        Instr::SetP { s: 0 },
        Instr::Jump { t: 39 },
        Instr::GetP { s: 0 },
        Instr::GetM { s: 0 },
        Instr::Call { n: 0, line: LINE },
        Instr::SetM { s: 0 },
        Instr::GetM { s: 0 },
        Instr::Int { v: turns },
        Instr::LtM,
        Instr::Again { t: 15 },
        Instr::GetM { s: 0 },
        Instr::WriteI { w: 0, line: LINE },
        Instr::Return { k: 0 },
    ]
}

// The procedure that is called: one more than its argument.
fn next_unit(alloc: Global) -> Result<CodeUnit, AllocError> {
    let code = code_of(
        alloc,
        &[
            Instr::GetM { s: 0 },
            Instr::Int { v: 1 },
            Instr::Add { line: LINE },
            Instr::Return { k: 1 },
        ],
    )?;
    Ok(CodeUnit {
        code: Bytes::new(code),
        constants: List::new(Vec::new(alloc)),
        frame: frame(1),
    })
}

// The unit of a loop of so many turns, with a call in each or without.
fn unit_of(alloc: Global, calls: bool, turns: i32) -> Result<CodeUnit, AllocError> {
    let code = if calls {
        code_of(alloc, &call_code(turns))?
    } else {
        code_of(alloc, &loop_code(turns))?
    };
    let mut constants = Vec::new(alloc);
    constants.push(Constant::of_unit(alloc, next_unit(alloc)?)?)?;
    Ok(CodeUnit {
        code: Bytes::new(code),
        constants: List::new(constants),
        frame: frame(0),
    })
}

fn main(rt: HostRuntime) -> Result<()> {
    let mut words = env::args(&rt)?.skip(1);
    let what = words.next().context("loop or call?")?;
    let turns = words.next().context("how many turns?")?.parse::<i32>()?;
    let unit = unit_of(rt.alloc(), what.as_str() == "call", turns)?;
    let host = MemoryHost::new(rt.alloc(), b"", &[], u64::MAX, ROOM)?;
    let mut output = Output::new(rt.alloc())?;
    let mut machine = machine(rt.alloc(), WORDS)?;
    let mut vault = NoStore::new(host);
    let Ok(()) = load(&mut machine, &vault, &unit, u64::MAX, Vec::new(rt.alloc())) else {
        bail!("not loaded");
    };
    match run(&mut machine, &mut vault, &mut output) {
        Ok(RunEnd::Done) => {}
        _ => bail!("not done"),
    }
    let Ok(()) = output.flush(&mut vault) else {
        bail!("not written");
    };
    let host = vault.into_host();
    println!(rt; "{} calls, {} bytes", host.clock(), host.told_bytes().len())?;
    Ok(())
}
