/// A line of a source text, counted from 1: one more than the newlines before the place that it
/// names.
#[derive(Clone, Copy, PartialEq, Eq, Debug)]
pub struct Line(pub u32);
