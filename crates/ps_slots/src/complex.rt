use ps_base::line::Line;

/// A body with too many slots: its line, and how many it has.
#[derive(Clone, Copy)]
pub struct Complex {
    pub line: Line,
    pub count: u64,
}
