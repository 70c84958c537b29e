//! The words behind the volume, as `clap` reads them.
ghost use Rattle.std.specs.Prelude.{◌≡◌, ◌≢◌, IfOk, false, true};
ghost use Rattle.clap.specs.Words.{app_of, is_simple_and_free, kind_of, rule_of};
ghost use Rattle.ps_args.specs.Words.{words_of};
ghost use Rattle.ps_args.specs.Simple.{bare, an_option, some_words, of_run, of_format, read_by};
ghost use Rattle.ps_args.specs.Reading.{ReadsAs, rows_in};

use crate::words::ArgsFault;
use clap::error::ErrorKind;
use clap::{Arg, ArgAction, ArgMatches, Command, Error};
use std::alloc::{AllocError, Global};

/// Reads the words of a run behind the volume.
pub fn read_run_words<'a>(alloc: Global, words: &'a [String]) -> Result<ArgMatches<'a>, ArgsFault>
    ensures { ReadsAs rows_in (read_by of_run (words_of words.now)) result }
{
    match run_words(alloc) {
        Ok(command) => read_by(command, words),
        Err(AllocError) => Err(ArgsFault::Memory),
    }
}

/// Reads the words of a new volume behind it.
pub fn read_format_words<'a>(
    alloc: Global,
    words: &'a [String],
) -> Result<ArgMatches<'a>, ArgsFault>
    ensures { ReadsAs rows_in (read_by of_format (words_of words.now)) result }
{
    match format_words(alloc) {
        Ok(command) => read_by(command, words),
        Err(AllocError) => Err(ArgsFault::Memory),
    }
}

// Reads the words by this command.
fn read_by<'a>(command: Command<'a>, words: &'a [String]) -> Result<ArgMatches<'a>, ArgsFault>
    requires { is_simple_and_free (app_of command) ≡ true }
    ensures { ReadsAs rows_in (read_by (app_of command.entry) (words_of words.now)) result }
{
    match command.try_get_matches_from(words) {
        Ok(matches) => Ok(matches),
        Err(error) => Err(cause(&error)),
    }
}

// Why `clap` read no words.
fn cause(error: &Error) -> ArgsFault
    ensures memory { kind_of error.now ≡ ErrorKind.OutOfMemory → result ≡ ArgsFault.Memory }
    ensures refused { result ≡ ArgsFault.Usage → kind_of error.now ≢ ErrorKind.OutOfMemory }
{
    match error.kind() {
        ErrorKind::OutOfMemory => ArgsFault::Memory,
        _ => ArgsFault::Usage,
    }
}

// `[--area KIB] [--turns N] [--input FILE] FILE..`
fn run_words<'a>(alloc: Global) -> Result<Command<'a>, AllocError>
    ensures { IfOk result (λ command. app_of command ≡ of_run) }
{
    let area = option(alloc, "area");
    let turns = option(alloc, "turns");
    let input = option(alloc, "input");
    let files = some_words(alloc, "file");
    bare_command(alloc, "run")
        .arg(area)?
        .arg(turns)?
        .arg(input)?
        .arg(files)
}

// `PAGES`
fn format_words<'a>(alloc: Global) -> Result<Command<'a>, AllocError>
    ensures { IfOk result (λ command. app_of command ≡ of_format) }
{
    bare_command(alloc, "format").arg(some_words(alloc, "pages"))
}

// The command of this name, without words yet: all words that it is given are its own, and it has no help.
fn bare_command<'a>(alloc: Global, name: &'a str) -> Command<'a>
    ensures { app_of result ≡ bare name.entry.now }
{
    Command::new(alloc, name)
        .no_binary_name(true)
        .disable_help_flag(true)
}

// An option `--name VALUE`.
fn option<'a>(alloc: Global, name: &'a str) -> Arg<'a>
    ensures rule { rule_of result ≡ an_option name.entry.now }
    ensures local { result.global ≡ false }
{
    Arg::new(alloc, name).long(name)
}

// One word and more that are no option.
fn some_words<'a>(alloc: Global, name: &'a str) -> Arg<'a>
    ensures rule { rule_of result ≡ some_words name.entry.now }
    ensures local { result.global ≡ false }
{
    Arg::new(alloc, name)
        .action(ArgAction::Append)
        .required(true)
}
