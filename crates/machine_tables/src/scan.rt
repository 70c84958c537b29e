use ps_base::line::Line;

/// A scan: the offset of its instruction in the code; the first of its three locals of references, which are the table, the procedure and the last key that
/// is a string; the first of its three locals of numbers, which are the count, the last key that is an int, and whether there is a last key; the offset at
/// which it ends, and its line.
#[derive(Clone, Copy)]
pub struct Scan {
    pub own: u32,
    pub refs: u32,
    pub nums: u32,
    pub end: u32,
    pub line: Line,
}
