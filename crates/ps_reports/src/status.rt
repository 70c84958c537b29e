//! The statuses of the program.
ghost use Rattle.std.specs.Prelude.{◌≡◌};
ghost use Rattle.ps_reports.specs.Statuses.{number_of};

/// With what the program ends (`docs/language.md` has the table).
#[derive(Clone, Copy)]
pub enum Status {
    /// A program was run to its end, or a volume was made.
    Done,
    /// The words are no command.
    Usage,
    /// A text is no program.
    Refused,
    /// A program ended in a trap.
    Trapped,
    /// A program took all its turns.
    OutOfTurns,
    /// There was no memory.
    NoMemory,
    /// The device failed.
    Device,
    /// A text couldn't be read.
    Unreadable,
    /// The output failed.
    Output,
    /// The file is no volume.
    NotAVolume,
    /// The volume is damaged.
    Damaged,
    /// The area of a program is full.
    AreaFull,
    /// The volume is full.
    VolumeFull,
    /// A text is too long.
    TooLong,
    /// There is a volume already.
    AlreadyAVolume,
}

impl Status {
    /// Its number, which the process ends with.
    pub fn number(self) -> u8
        ensures { result ≡ number_of self }
    {
        match self {
            Status::Done => 0,
            Status::Usage => 1,
            Status::Refused => 2,
            Status::Trapped => 3,
            Status::OutOfTurns => 4,
            Status::NoMemory => 5,
            Status::Device => 6,
            Status::Unreadable => 7,
            Status::Output => 8,
            Status::NotAVolume => 9,
            Status::Damaged => 10,
            Status::AreaFull => 11,
            Status::VolumeFull => 12,
            Status::TooLong => 13,
            Status::AlreadyAVolume => 14,
        }
    }
}
