//! Decodes a long code some times over, for a count of the machine instructions that it takes.
#![tactic(auto)]

use anyhow::{Context, Result};
use ps_base::instr::Instr;
use ps_code::decode::decode;
use ps_code::table::rows;
use std::alloc::{AllocError, Global};
use std::env;

// Every instruction in turn, so many in all.
fn code_of(alloc: Global, count: usize) -> Result<Vec<u8>, AllocError> {
    let mut code = Vec::new(alloc);
    for row in rows().iter().cycle().take(count) {
        code.push(row.code)?;
        for _ in 0..row.operands {
            code.extend_from_slice(&[7, 0, 0, 0])?;
        }
    }
    Ok(code)
}

// The operands of an instruction, added up.
fn sum_of(instr: Instr) -> u64 {
    match instr {
        Instr::Int { v } => u64::from(v.cast_unsigned()),
        Instr::True
        | Instr::False
        | Instr::Nil
        | Instr::Leave
        | Instr::Not
        | Instr::EqM
        | Instr::NeM
        | Instr::LtM
        | Instr::LeM
        | Instr::GtM
        | Instr::GeM
        | Instr::EqP
        | Instr::NeP
        | Instr::EqT
        | Instr::NeT
        | Instr::LtT
        | Instr::LeT
        | Instr::GtT
        | Instr::GeT
        | Instr::Lwb
        | Instr::Upb
        | Instr::DupM
        | Instr::DupP
        | Instr::DropM
        | Instr::DropP => 0,
        Instr::Text { c }
        | Instr::Scope { c }
        | Instr::Is { c }
        | Instr::Make { c }
        | Instr::Closure { c } => u64::from(c),
        Instr::GetM { s } | Instr::GetP { s } | Instr::SetM { s } | Instr::SetP { s } => u64::from(
            s,
        ),
        Instr::KeptM { u, i }
        | Instr::KeptP { u, i }
        | Instr::KeepM { u, i }
        | Instr::KeepP { u, i } => u64::from(u).wrapping_add(u64::from(i)),
        Instr::Jump { t }
        | Instr::JumpFalse { t }
        | Instr::Again { t }
        | Instr::And { t }
        | Instr::Or { t }
        | Instr::JumpTrue { t } => u64::from(t),
        Instr::Neg { line }
        | Instr::Add { line }
        | Instr::Sub { line }
        | Instr::Mul { line }
        | Instr::Div { line }
        | Instr::Rem { line }
        | Instr::Join { line }
        | Instr::Part { line }
        | Instr::ElemM { line }
        | Instr::ElemP { line }
        | Instr::SetElemM { line }
        | Instr::SetElemP { line }
        | Instr::Abort { line } => u64::from(line.0),
        Instr::FieldM { c, i, line }
        | Instr::FieldP { c, i, line }
        | Instr::SetFieldM { c, i, line }
        | Instr::SetFieldP { c, i, line } => u64::from(c)
            .wrapping_add(u64::from(i))
            .wrapping_add(u64::from(line.0)),
        Instr::FillM { c, line } | Instr::FillP { c, line } => u64::from(c).wrapping_add(u64::from(
            line.0,
        )),
        Instr::ListM { c, n, line } | Instr::ListP { c, n, line } => u64::from(c)
            .wrapping_add(u64::from(n))
            .wrapping_add(u64::from(line.0)),
        Instr::Call { n, line } => u64::from(n).wrapping_add(u64::from(line.0)),
        Instr::Return { k } => u64::from(k),
        Instr::Lib { k, line } => u64::from(k).wrapping_add(u64::from(line.0)),
        Instr::WriteI { w, line } | Instr::WriteB { w, line } | Instr::WriteT { w, line } =>
            u64::from(w).wrapping_add(u64::from(line.0)),
        Instr::ForStart { s, t, line } => u64::from(s)
            .wrapping_add(u64::from(t))
            .wrapping_add(u64::from(line.0)),
        Instr::ForNext { s, t } | Instr::ScanMore { s, t } => u64::from(s).wrapping_add(u64::from(
            t,
        )),
        Instr::ScanT { q, s, t, line } | Instr::ScanI { q, s, t, line } => u64::from(q)
            .wrapping_add(u64::from(s))
            .wrapping_add(u64::from(t))
            .wrapping_add(u64::from(line.0)),
    }
}

// The operands of all instructions of the code, added to a number, as a machine goes through them.
#[inline(never)]
fn pass(code: &[u8], sum: u64) -> u64 {
    let mut sum = sum;
    let mut rest = code;
    while let Some((instr, width)) = decode(rest) {
        sum = sum.wrapping_add(sum_of(instr));
        rest = &rest[width..];
    }
    sum
}

fn main(rt: HostRuntime) -> Result<()> {
    let mut words = env::args(&rt)?.skip(1);
    let count = words
        .next()
        .context("how many instructions?")?
        .parse::<usize>()?;
    let passes = words.next().context("how many passes?")?.parse::<u32>()?;
    let code = code_of(rt.alloc(), count)?;
    let mut sum = 0;
    for _ in 0..passes {
        sum = pass(&code, sum);
    }
    println!(rt; "{sum}")?;
    Ok(())
}
