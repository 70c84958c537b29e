//! Why a command ends, where it isn't the end of a program.
ghost use Rattle.std.specs.Prelude.{◌≡◌};
ghost use Rattle.ps_base.specs.Limits.{most_text_bytes};
ghost use Rattle.ps_port.specs.Telling.{LeavesDevice, joined};
ghost use Rattle.ps_reports.specs.Answering.{Answers};
ghost use Rattle.ps_reports.specs.Reports.{unreadable_line, too_long_line, fault_line, area_full_line, volume_full_line, not_a_volume_line, damaged_line};
ghost use Rattle.ps_reports.specs.Reporting.{line_of, status_of, name_of};
ghost use Rattle.ps_reports.specs.Statuses.{number_of};

use crate::status::Status;
use itoa::Buffer;
use ps_base::LONGEST_TEXT;
use ps_base::line::Line;
use ps_port::{Host, tell};

/// The stage that refused a text.
#[derive(Clone, Copy)]
pub enum Stage {
    Scan,
    Parse,
    Check,
}

impl Stage {
    /// Its name in the report line.
    pub fn name(self) -> &'static [u8]
        ensures { result.now ≡ name_of self }
    {
        match self {
            Stage::Scan => b"scan",
            Stage::Parse => b"parse",
            Stage::Check => b"check",
        }
    }
}

/// Why a command ends, where it isn't the end of a program (`docs/language.md` has the lines and statuses).
#[derive(Clone, Copy)]
pub enum Report<'a> {
    /// The words are no command.
    Usage,
    /// There was no memory.
    NoMemory,
    /// The text of this name couldn't be read.
    Unreadable {
        file: &'a str,
    },
    /// The text of this name has so many bytes, more than a text may have.
    TooLong {
        file: &'a str,
        length: u64,
    },
    /// The text of this name is no program: its first fault, by its number in the stage that found it, and its line.
    Refused {
        file: &'a str,
        stage: Stage,
        number: u8,
        line: Line,
    },
    /// The area is full: its next word, the words of the object that was to be made, and its size in words.
    AreaFull {
        top: u32,
        wanted: u32,
        size: u32,
    },
    /// The volume is full: its used words, the words of the object that was to be stored, and the words that it can have.
    VolumeFull {
        used: u64,
        wanted: u64,
        capacity: u64,
    },
    /// The device failed.
    Device,
    /// The file is no volume: its size in bytes, and its byte 0, which is 0 where it is empty.
    NotAVolume {
        size: u64,
        gate: u8,
    },
    /// The volume is damaged: the place in bytes of the number that failed its test, the number, and its bound.
    Damaged {
        at: u64,
        found: u64,
        wanted: u64,
    },
    /// There is a volume already.
    AlreadyAVolume,
}

impl Report<'_> {
    /// Writes its line by the host, and answers the number of its status, or that of `Status::Output` where the output failed.
    pub fn write<H: Host>(&self, host: &mut H) -> u8
        ensures answers { Answers (H.outside host.old) (H.outside host.new) (line_of self.now) (number_of (status_of self.now)) result }
        ensures device { LeavesDevice (H.outside host.old) (H.outside host.new) }
    {
        match self {
            Report::Usage => answer(
                host,
                &[b"usage: psalgol COMMAND VOLUME WORDS\n"],
                Status::Usage,
            ),
            Report::NoMemory => answer(host, &[b"out of memory\n"], Status::NoMemory),
            Report::Unreadable { file } => unreadable(host, file),
            Report::TooLong { file, length } => too_long(host, file, *length),
            Report::Refused {
                file,
                stage,
                number,
                line,
            } => refused(host, file, stage.name(), *number, *line),
            Report::AreaFull { top, wanted, size } => area_full(host, *top, *wanted, *size),
            Report::VolumeFull {
                used,
                wanted,
                capacity,
            } => volume_full(host, *used, *wanted, *capacity),
            Report::Device => answer(host, &[b"device fault\n"], Status::Device),
            Report::NotAVolume { size, gate } => not_a_volume(host, *size, *gate),
            Report::Damaged { at, found, wanted } => damaged(host, *at, *found, *wanted),
            Report::AlreadyAVolume => {
                answer(host, &[b"already a volume\n"], Status::AlreadyAVolume)
            }
        }
    }
}

// Writes that a text couldn't be read.
fn unreadable<H: Host>(host: &mut H, file: &str) -> u8
    ensures answers { Answers (H.outside host.old) (H.outside host.new) (unreadable_line file.now) 7 result }
    ensures device { LeavesDevice (H.outside host.old) (H.outside host.new) }
{
    answer(
        host,
        &[b"cannot read ", file.as_bytes(), b"\n"],
        Status::Unreadable,
    )
}

// Writes how long a text is that is too long.
fn too_long<H: Host>(host: &mut H, file: &str, length: u64) -> u8
    ensures answers { Answers (H.outside host.old) (H.outside host.new) (too_long_line file.now length) 13 result }
    ensures device { LeavesDevice (H.outside host.old) (H.outside host.new) }
{
    let mut of_length = Buffer::new();
    let mut of_most = Buffer::new();
    let count = of_length.format(length).as_bytes();
    let most = of_most.format(LONGEST_TEXT).as_bytes();
    let name = file.as_bytes();
    answer(
        host,
        &[name, b": ", count, b" bytes, at most ", most, b"\n"],
        Status::TooLong,
    )
}

// Writes the first fault of a text: its stage, its number and its line.
fn refused<H: Host>(host: &mut H, file: &str, stage: &[u8], number: u8, line: Line) -> u8
    ensures answers { Answers (H.outside host.old) (H.outside host.new) (fault_line file.now stage.now number line) 2 result }
    ensures device { LeavesDevice (H.outside host.old) (H.outside host.new) }
{
    let mut of_number = Buffer::new();
    let mut of_line = Buffer::new();
    let number = of_number.format(number).as_bytes();
    let line = of_line.format(line.0).as_bytes();
    let name = file.as_bytes();
    answer(
        host,
        &[name, b": ", stage, b" ", number, b" at line ", line, b"\n"],
        Status::Refused,
    )
}

// Writes that the area was full: its next word, the words of the object that was to be made, and its size.
fn area_full<H: Host>(host: &mut H, top: u32, wanted: u32, size: u32) -> u8
    ensures answers { Answers (H.outside host.old) (H.outside host.new) (area_full_line top wanted size) 11 result }
    ensures device { LeavesDevice (H.outside host.old) (H.outside host.new) }
{
    let mut of_top = Buffer::new();
    let mut of_wanted = Buffer::new();
    let mut of_size = Buffer::new();
    let top = of_top.format(top).as_bytes();
    let wanted = of_wanted.format(wanted).as_bytes();
    let size = of_size.format(size).as_bytes();
    answer(
        host,
        &[
            b"area full: ",
            top,
            b" + ",
            wanted,
            b" > ",
            size,
            b" words\n",
        ],
        Status::AreaFull,
    )
}

// Writes that the volume was full: its used words, the words of the object that was to be stored, and the words that it can have.
fn volume_full<H: Host>(host: &mut H, used: u64, wanted: u64, capacity: u64) -> u8
    ensures answers { Answers (H.outside host.old) (H.outside host.new) (volume_full_line used wanted capacity) 12 result }
    ensures device { LeavesDevice (H.outside host.old) (H.outside host.new) }
{
    let mut of_used = Buffer::new();
    let mut of_wanted = Buffer::new();
    let mut of_capacity = Buffer::new();
    let used = of_used.format(used).as_bytes();
    let wanted = of_wanted.format(wanted).as_bytes();
    let capacity = of_capacity.format(capacity).as_bytes();
    answer(
        host,
        &[
            b"volume full: ",
            used,
            b" + ",
            wanted,
            b" > ",
            capacity,
            b" words\n",
        ],
        Status::VolumeFull,
    )
}

// Writes that the file is no volume: its size in bytes and its byte 0.
fn not_a_volume<H: Host>(host: &mut H, size: u64, gate: u8) -> u8
    ensures answers { Answers (H.outside host.old) (H.outside host.new) (not_a_volume_line size gate) 9 result }
    ensures device { LeavesDevice (H.outside host.old) (H.outside host.new) }
{
    let mut of_size = Buffer::new();
    let mut of_gate = Buffer::new();
    let size = of_size.format(size).as_bytes();
    let gate = of_gate.format(gate).as_bytes();
    answer(
        host,
        &[b"not a volume: ", size, b" bytes, gate ", gate, b"\n"],
        Status::NotAVolume,
    )
}

// Writes where the volume is damaged: the place in bytes of the number that failed its test, the number, and its bound.
fn damaged<H: Host>(host: &mut H, at: u64, found: u64, wanted: u64) -> u8
    ensures answers { Answers (H.outside host.old) (H.outside host.new) (damaged_line at found wanted) 10 result }
    ensures device { LeavesDevice (H.outside host.old) (H.outside host.new) }
{
    let mut of_place = Buffer::new();
    let mut of_found = Buffer::new();
    let mut of_wanted = Buffer::new();
    let place = of_place.format(at).as_bytes();
    let found = of_found.format(found).as_bytes();
    let wanted = of_wanted.format(wanted).as_bytes();
    answer(
        host,
        &[
            b"damaged at ",
            place,
            b": found ",
            found,
            b", wanted ",
            wanted,
            b"\n",
        ],
        Status::Damaged,
    )
}

// Writes pieces one after the other, and answers the number of the status.
#[tactic(auto, using(crate::specs::Answering::answering))]
fn answer<H: Host>(host: &mut H, parts: &[&[u8]], status: Status) -> u8
    ensures answers { Answers (H.outside host.old) (H.outside host.new) (joined parts.now) (number_of status) result }
    ensures device { LeavesDevice (H.outside host.old) (H.outside host.new) }
{
    match tell::pieces(host, parts) {
        Ok(()) => status.number(),
        Err(_) => Status::Output.number(),
    }
}
