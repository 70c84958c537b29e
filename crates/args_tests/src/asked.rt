use ps_args::{ArgsFault, Command, RunWords, read_words};
use std::alloc::{AllocError, Global};

/// What a list of words asks for.
#[derive(Clone, Copy)]
pub enum Asked {
    Run {
        area: u32,
        turns: u64,
        input: Option<&'static str>,
        files: &'static [&'static str],
    },
    Volume {
        pages: u32,
    },
    Text {
        text: &'static str,
    },
    Usage,
}

/// A list of words, and what it asks for.
#[derive(Clone, Copy)]
pub struct Row {
    pub words: &'static [&'static str],
    pub asked: Asked,
}

impl Row {
    /// Whether it is read so; not so where there was no memory for it.
    pub fn is_read(&self, alloc: Global) -> bool {
        match words_of(alloc, self.words) {
            Ok(words) => self.asked.is(&read_words(alloc, &words)),
            Err(_) => false,
        }
    }

    /// Whether the command is a new volume, and the words behind its volume; where that is a command whose words `clap` reads.
    pub fn for_clap(&self) -> Option<(bool, &'static [&'static str])> {
        match self.words {
            [name, volume, behind @ ..] => {
                if (*name == "run" || *name == "format") && !volume.starts_with("-") {
                    Some((*name == "format", behind))
                } else {
                    None
                }
            }
            [_] => None,
            [] => None,
        }
    }
}

impl Asked {
    /// Whether this was read.
    pub fn is(&self, read: &Result<Command, ArgsFault>) -> bool {
        match (self, read) {
            (
                Asked::Run {
                    area,
                    turns,
                    input,
                    files,
                },
                Ok(Command::Run(run)),
            ) => {
                run.area_kib == *area
                    && run.turns == *turns
                    && run.input == *input
                    && are_files(run, files)
            }
            (Asked::Volume { pages }, Ok(Command::Format { pages: read })) => pages == read,
            (Asked::Text { text }, Ok(Command::Tell { text: read })) => text == read,
            (Asked::Usage, Err(ArgsFault::Usage)) => true,
            _ => false,
        }
    }
}

// Whether the run is of these texts.
fn are_files(run: &RunWords, files: &[&str]) -> bool {
    match files {
        [file, further @ ..] => run.file == *file && run.further.as_slice() == further,
        [] => false,
    }
}

/// The words, each in memory of its own.
pub fn words_of(alloc: Global, words: &[&str]) -> Result<Vec<String>, AllocError> {
    let mut all = Vec::new(alloc);
    for word in words {
        all.push(String::from_str(alloc, word)?)?;
    }
    Ok(all)
}
