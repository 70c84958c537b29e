//! The program `psalgol`: the words of a process in, its status out.
//!
//! `ps_args` reads the words, once, and `ps_command` does the rest; `docs/architecture.md` tells the way of a program through the crates.
#![tactic(auto)]

use ps_command::ps_args::{ArgsFault, Command, read_words};
use ps_command::psalgol;
use ps_port::{DirShelf, FileHost};
use std::alloc::AllocError;
use std::env;
use std::io::ErrorKind;
use std::process::ExitCode;

/// The status where there was no memory.
const NO_MEMORY: u8 = 5;

fn main(rt: HostRuntime) -> ExitCode {
    ExitCode::from(status(&rt))
}

// Words that are no text are no command, as an empty list of words is none.
fn status(rt: &HostRuntime) -> u8 {
    match env::args(rt) {
        Ok(args) => match args.skip(1).collect::<Vec<String>>(rt.alloc()) {
            Ok(words) => run_words(rt, &words).unwrap_or(NO_MEMORY),
            Err(_) => NO_MEMORY,
        },
        Err(error) if error.kind() == ErrorKind::OutOfMemory => NO_MEMORY,
        Err(_) => run_words(rt, &[]).unwrap_or(NO_MEMORY),
    }
}

// The file of the volume is made only where one is to be made there.
fn run_words(rt: &HostRuntime, words: &[String]) -> Result<u8, AllocError> {
    let read = read_words(rt.alloc(), words);
    let volume = words.get(1).map_or("", |word| word.as_str());
    let host = FileHost::new(rt, rt.alloc(), volume, makes_volume(&read))?;
    let mut shelf = DirShelf::new(rt, rt.alloc())?;
    let (status, _) = psalgol(rt.alloc(), read, host, &mut shelf);
    Ok(status)
}

fn makes_volume(read: &Result<Command, ArgsFault>) -> bool {
    match read {
        Ok(Command::Format { .. }) => true,
        _ => false,
    }
}
