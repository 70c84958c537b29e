/// What a step returned. A write is left to the caller, and the other steps output nothing. What a write writes, where the run ended and why a step broke
/// off stand in the machine.
#[derive(Clone, Copy)]
pub enum Stepped {
    /// The run goes on.
    Quiet,
    /// The run goes on, into another turn.
    Turns,
    /// The run goes on after the machine's write.
    Writes,
    /// The run is at the machine's end.
    Halts,
    /// The step broke off, for the machine's fault; the machine is of no use.
    Breaks,
    /// There is no step: the code isn't what a machine can run.
    Damaged,
}

/// What a write instruction writes: an item, right in so many places where a width is given.
#[derive(Clone, Copy)]
pub struct Writing {
    pub width: Option<i32>,
    pub item: Item,
}

/// The item of a write. A text is named by the index of its object in the area.
#[derive(Clone, Copy)]
pub enum Item {
    Int(i32),
    Flag(bool),
    Text(u32),
}
