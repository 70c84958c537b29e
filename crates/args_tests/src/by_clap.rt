//! What `clap` makes of the words behind the volume, by commands that are built here.
use crate::asked::{Asked, Row};
use clap::{Arg, ArgAction, ArgMatches, Command, Error};
use std::alloc::Global;

/// Whether `clap` takes the words behind the volume of a run or a new volume, and reads of them what the row asks for; or refuses them, or
/// takes them where `may_be_taken`, where they are no command. Words that it isn't asked for agree.
pub fn agrees(alloc: Global, row: &Row, may_be_taken: bool) -> bool {
    let Some((is_new, behind)) = row.for_clap() else {
        return true;
    };
    match (row.asked, matches(alloc, is_new, behind)) {
        (Asked::Run { input, files, .. }, Ok(matches)) => {
            matches.get_str("input") == input && matches.get_strs("file") == Some(files)
        }
        (Asked::Volume { .. }, Ok(matches)) => matches.get_str("pages").is_some(),
        (Asked::Usage, Ok(_)) => may_be_taken,
        (Asked::Usage, Err(_)) => !may_be_taken,
        _ => false,
    }
}

// What it reads of the words behind the volume.
fn matches(
    alloc: Global,
    is_new: bool,
    behind: &'static [&'static str],
) -> Result<ArgMatches<'static>, Error> {
    let command = if is_new {
        Command::new(alloc, "format").arg(Arg::new(alloc, "pages").required(true))?
    } else {
        Command::new(alloc, "run")
            .arg(Arg::new(alloc, "area").long("area"))?
            .arg(Arg::new(alloc, "turns").long("turns"))?
            .arg(Arg::new(alloc, "input").long("input"))?
            .arg(
                Arg::new(alloc, "file")
                    .num_args(1..)
                    .action(ArgAction::Append)
                    .required(true),
            )?
    };
    command
        .no_binary_name(true)
        .disable_help_flag(true)
        .try_get_matches_from(behind)
}
