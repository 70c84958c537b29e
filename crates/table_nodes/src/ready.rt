use crate::wing::Wing;

/// What the way up may need of the side that stays, opened before the way down: its wing, where it is the higher side, and the height that the
/// other side is below.
#[derive(Clone, Copy)]
pub struct Ready {
    pub wing: Wing,
    pub bound: u64,
}
