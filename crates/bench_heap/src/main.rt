//! Makes calls on two objects of the area in turn, for a count of the machine instructions that they take. The first word of the command
//! line is what is read, the second how many elements or fields each object has, the third the number of calls.
#![tactic(auto)]

mod code;
mod fields;
mod numbers;
mod pair;

use anyhow::{Context, Result, bail};
use std::alloc::Global;
use std::env;

// What so many calls of a sort gave, added up.
fn sum_of(alloc: Global, what: &str, size: u32, calls: u32) -> Result<u64> {
    match what {
        "num" => numbers::sum_numbers(alloc, size, calls),
        "element" => numbers::sum_elements(alloc, size, calls),
        "field" => fields::sum_fields(alloc, size, calls),
        "instr" => code::sum_instructions(alloc, calls),
        _ => bail!("num, element, field or instr?"),
    }
}

fn main(rt: HostRuntime) -> Result<()> {
    let mut words = env::args(&rt)?.skip(1);
    let what = words.next().context("what is read?")?;
    let size = words.next().context("how large?")?.parse::<u32>()?;
    let calls = words.next().context("how often?")?.parse::<u32>()?;
    println!(rt; "{}", sum_of(rt.alloc(), what.as_str(), size, calls)?)?;
    Ok(())
}
