//! Reads the text of a file, checks it, and tells what the check returns: `typed`, or the number and line of its first fault.
//! For the time and the memory that it takes.
#![tactic(auto)]

use anyhow::Result;
use parsed_texts::ps_tree::rough::Rough;
use parsed_texts::{TextFault, tree_of};
use ps_check::check::check;
use ps_port::{DirShelf, Shelf};
use std::alloc::Global;
use std::env;

fn main(rt: HostRuntime) -> Result<()> {
    let told = match named(&rt) {
        Some(text) => checked(rt.alloc(), &text),
        None => Verdict::NoText,
    };
    match told {
        Verdict::NoText => println!(rt; "no text")?,
        Verdict::NoTree => println!(rt; "no tree")?,
        Verdict::Memory => println!(rt; "no memory")?,
        Verdict::Typed => println!(rt; "typed")?,
        Verdict::Fault { number, line } => println!(rt; "check {} at line {}", number, line)?,
    }
    Ok(())
}

/// What is told of a text.
#[derive(Clone, Copy)]
enum Verdict {
    NoText,
    NoTree,
    Memory,
    Typed,
    Fault { number: u8, line: u32 },
}

// The text of the file that the first word names.
fn named(rt: &HostRuntime) -> Option<Vec<u8>> {
    let word = env::args(rt).ok()?.nth(1)?;
    let mut shelf = DirShelf::new(rt, rt.alloc()).ok()?;
    let mut text = Vec::new(rt.alloc());
    shelf.text(&word, &mut text).ok()?;
    Some(text)
}

fn checked(alloc: Global, text: &[u8]) -> Verdict {
    match tree_of(alloc, text) {
        Ok(rough) => verdict_of(alloc, rough),
        Err(TextFault::TooLong) => Verdict::NoText,
        Err(TextFault::Scan(_) | TextFault::Parse(_)) => Verdict::NoTree,
    }
}

fn verdict_of(alloc: Global, rough: Rough) -> Verdict {
    match check(alloc, rough) {
        Ok(_) => Verdict::Typed,
        Err(fault) => match (fault.number(), fault.line()) {
            (Some(number), Some(line)) => Verdict::Fault {
                number,
                line: line.0,
            },
            _ => Verdict::Memory,
        },
    }
}
