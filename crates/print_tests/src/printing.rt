//! What a program is printed as.

use anyhow::{Result, bail};
use parsed_texts::{TextFault, tree_of};
use ps_print::print::print;
use std::alloc::Global;
use std::fmt::Write;

fn printed(alloc: Global, text: &[u8]) -> Result<Vec<u8>> {
    match tree_of(alloc, text) {
        Ok(tree) => Ok(print(alloc, &tree)?),
        Err(TextFault::TooLong) => bail!("a text that is too long"),
        Err(TextFault::Scan(_)) => bail!("a fault of the scanner"),
        Err(TextFault::Parse(_)) => bail!("a fault of the parser"),
    }
}

/// What a program is printed as; where that is what is wanted, what it is printed as when it is read back.
pub fn printed_again(alloc: Global, text: &[u8], wanted: &[u8]) -> Result<Vec<u8>> {
    let once = printed(alloc, text)?;
    if once.as_slice() == wanted {
        printed(alloc, &once)
    } else {
        Ok(once)
    }
}

/// The length of what a chain is printed as: its first operand, and so many more. No stack is as deep as a chain can be long.
pub fn printed_length(alloc: Global, first: &[u8], more: &[u8], count: usize) -> Result<Vec<u8>> {
    let mut text = Vec::from_slice(alloc, first)?;
    for _ in 0..count {
        text.extend_from_slice(more)?;
    }
    let length = printed(alloc, &text)?.len();
    let mut shown = String::new(alloc);
    write!(shown, "{length}")?;
    Ok(shown.into_bytes())
}
