//! Makes calls on a table whose nodes all lie in the area, for a count of the machine instructions that they take. The first word of the command
//! line is what is done, the second how many keys the table has before, the third the number of calls.
#![tactic(auto)]

mod calls;
mod scene;

use anyhow::{Context, Result, bail};
use std::alloc::Global;
use std::env;

// How many of so many calls of a sort were answered, after so many keys were entered.
fn count_of(alloc: Global, what: &str, keys: u32, calls: u32) -> Result<u32> {
    match what {
        "int" => calls::find_ints(alloc, keys, calls),
        "text" => calls::find_texts(alloc, keys, calls),
        "write" => calls::write_texts(alloc, keys, calls),
        "enter" => calls::enter_more(alloc, keys, calls),
        "rising" => calls::enter_rising(alloc, keys),
        "falling" => calls::enter_falling(alloc, keys),
        "scattered" => calls::enter_scattered(alloc, keys),
        _ => bail!("int, text, write, enter, rising, falling or scattered?"),
    }
}

fn main(rt: HostRuntime) -> Result<()> {
    let mut words = env::args(&rt)?.skip(1);
    let what = words.next().context("what is done?")?;
    let keys = words.next().context("how many keys?")?.parse::<u32>()?;
    let calls = words.next().context("how often?")?.parse::<u32>()?;
    println!(rt; "{}", count_of(rt.alloc(), what.as_str(), keys, calls)?)?;
    Ok(())
}
