//! The code of a turn of `while i < 7 do i := i + 7`, instruction by instruction.
ghost use Rattle.std.specs.Prelude.{IfOk};
ghost use Rattle.proc_values.specs.swizzle.Heap.{IsHeld, Stands};
ghost use Rattle.bench_heap.specs.Scene.{AreHeld};

use crate::pair::{Pair, pick};
use anyhow::{Result, bail};
use memory_vault::obj_layout::kind::Kind;
use proc_values::reading::instr_at;
use proc_values::swizzle::fault::SwizzleFault;
use proc_values::swizzle::swizzle::Swizzle;
use ps_base::instr::Instr;
use std::alloc::Global;

// `get.m`, `int`, `lt.m`, `again`, `get.m`, `int`, `add` and `set.m`.
const TURN: [u8; 36] = [
    6, 3, 0, 0, 0, 1, 7, 0, 0, 0, 30, 18, 0, 0, 0, 0, 6, 3, 0, 0, 0, 1, 7, 0, 0, 0, 23, 1, 0, 0, 0,
    8, 3, 0, 0, 0,
];

/// An instruction's operands, added up, and the offset after it.
#[derive(Clone, Copy)]
struct Step {
    sum: u32,
    next: u32,
}

// The instruction at an offset of one of the two.
#[inline]
fn read_instruction(sw: &Swizzle, pair: Pair, sum: u64, at: u32) -> Option<Step>
    requires { AreHeld sw.now pair }
{
    let code = pick(sw, pair, sum);
    let Ok((instr, next)) = instr_at(sw, code, at) else {
        return None;
    };
    let sum = match instr {
        Instr::Int { v } => v.cast_unsigned(),
        Instr::GetM { s } | Instr::SetM { s } => s,
        Instr::Again { t } => t,
        Instr::Add { line } => line.0,
        _ => 0,
    };
    Some(Step { sum, next })
}

// Code of one turn.
fn turn(sw: &mut Swizzle) -> Result<u32, SwizzleFault>
    ensures held { IfOk result (IsHeld sw.new) }
    ensures stands { Stands sw.old sw.new }
{
    match sw.make(Kind::Code, 0, 7, 36) {
        Ok(code) => {
            sw.write_text(code, 0, &TURN);
            Ok(code)
        }
        Err(fault) => Err(fault),
    }
}

fn two_turns(sw: &mut Swizzle) -> Result<Pair, SwizzleFault>
    ensures { IfOk result (AreHeld sw.new) }
{
    let a = turn(sw)?;
    let b = turn(sw)?;
    Ok(Pair { a, b })
}

/// The operands of so many instructions, added up: those of a turn are 24.
pub fn sum_instructions(alloc: Global, calls: u32) -> Result<u64> {
    let mut sw = Swizzle::new(alloc, 50)?;
    match two_turns(&mut sw) {
        Ok(pair) => sum_operands(&sw, pair, calls),
        Err(_) => bail!("no room for the code"),
    }
}

fn sum_operands(sw: &Swizzle, pair: Pair, calls: u32) -> Result<u64>
    requires { AreHeld sw.now pair }
{
    let mut at = 0;
    let mut sum = 0u64;
    for _ in 0..calls {
        match read_instruction(sw, pair, sum, at) {
            Some(step) => {
                sum = sum.wrapping_add(u64::from(step.sum));
                at = if step.next == 36 { 0 } else { step.next };
            }
            None => bail!("no such instruction"),
        }
    }
    Ok(sum)
}
