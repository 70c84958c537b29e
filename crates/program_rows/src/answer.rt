use command_answers::memory_host::MemoryHost;
use command_answers::{Answer, host_of, new_volume};
use std::alloc::{AllocError, Global};
use table_rows::Row;

/// The name of a row's program, after its other words.
const PROGRAM: &str = "x.ps";

/// The name of a row's input.
const INPUT: &str = "in";

/// The commands of rows, over a new volume for each row.
#[derive(Drop)]
pub struct Commands {
    alloc: Global,
    volume: Vec<u8>,
}

impl Commands {
    /// Makes the volume that they all begin with.
    pub fn new(alloc: Global) -> Result<Commands, AllocError> {
        Ok(Commands {
            alloc,
            volume: new_volume(alloc, "32")?,
        })
    }

    /// The status that the command gets for each of a row's programs, and after it what it outputs. Each runs over the host that the one before left.
    pub fn answers(&self, row: &Row) -> Result<Vec<u8>, AllocError> {
        let words = self.words(row)?;
        let mut told = Vec::new(self.alloc);
        let mut host = host_of(self.alloc, &self.volume, &[])?;
        for place in 0..programs_of(row) {
            let before = host.told_bytes().len();
            let answer = self.answer(&words, row, place, host)?;
            let all = answer.told();
            put(
                &mut told,
                answer.status() as usize,
                &all[before.min(all.len())..],
            )?;
            host = answer.into_host();
        }
        Ok(told)
    }

    /// The same as the row has it.
    pub fn wanted(&self, row: &Row) -> Result<Vec<u8>, AllocError> {
        let mut told = Vec::new(self.alloc);
        for place in 0..programs_of(row) {
            put(&mut told, row.number(place), row.field(output_of(place)))?;
        }
        Ok(told)
    }

    // What these words return of the program of this place over this host. The field after those of all programs is their input.
    fn answer(
        &self,
        words: &[String],
        row: &Row,
        place: usize,
        host: MemoryHost,
    ) -> Result<Answer, AllocError> {
        let program = (PROGRAM, row.field(program_of(place)));
        let input = program_of(programs_of(row));
        if row.fields.len() > input {
            Answer::of(
                self.alloc,
                words,
                &[program, (INPUT, row.field(input))],
                host,
            )
        } else {
            Answer::of(self.alloc, words, &[program], host)
        }
    }

    // The words of the head after the statuses, and the program's name.
    fn words(&self, row: &Row) -> Result<Vec<String>, AllocError> {
        let mut words = Vec::new(self.alloc);
        for word in row.head.split(|byte| *byte == b' ').skip(programs_of(row)) {
            words.push(String::from_utf8_lossy(self.alloc, word)?)?;
        }
        words.push(String::from_str(self.alloc, PROGRAM)?)?;
        Ok(words)
    }
}

// How many programs a row has: as many as statuses, which stand in its head before the command.
fn programs_of(row: &Row) -> usize {
    let mut count = 0usize;
    for word in row.head.split(|byte| *byte == b' ') {
        match word {
            [first, ..] if first.is_ascii_digit() => count = count.saturating_add(1),
            _ => return count,
        }
    }
    count
}

// The field of a row's program of this place, and that of what it outputs.
fn program_of(place: usize) -> usize {
    place.saturating_mul(2)
}

fn output_of(place: usize) -> usize {
    program_of(place).saturating_add(1)
}

// Puts a status, and what was output with it, after the rest.
fn put(told: &mut Vec<u8>, status: usize, bytes: &[u8]) -> Result<(), AllocError> {
    for place in [100, 10, 1] {
        told.push(b"0123456789"[status / place % 10])?;
    }
    told.push(b' ')?;
    told.extend_from_slice(bytes)?;
    told.push(b'\n')?;
    Ok(())
}
