//! Loops over objects that a vault brought, or over new ones, and texts that are found by their PIDs, for a count of the machine instructions that
//! they take.
//!
//! The words of the command line: `field`, `link`, `element`, `call` or `kept`, then `stored` or `new`, then how many turns the loop has; or `found`, how
//! many texts there are, and how often each of them is found.
#![tactic(auto)]

mod found;
mod object;
mod turning;

use crate::object::{Object, Origin};
use anyhow::{Context, Result};
use std::env;

fn main(rt: HostRuntime) -> Result<()> {
    let mut words = env::args(&rt)?.skip(1);
    let what = words.next().context("what is measured?")?;
    let how = words.next().context("stored or new, or how many?")?;
    let count = words.next().context("how often?")?.parse::<u32>()?;
    if what.as_str() == "found" {
        let texts = how.as_str().parse::<u32>()?;
        let sum = found::sum_found(rt.alloc(), texts, count)?;
        println!(rt; "{}", sum)?;
        return Ok(());
    }
    let object = Object::named(what.as_str()).context("no such object")?;
    let origin = Origin::named(how.as_str()).context("stored or new?")?;
    let told = turning::told(rt.alloc(), object, origin, count)?;
    println!(rt; "{}", String::from_utf8_lossy(rt.alloc(), &told)?)?;
    Ok(())
}
