use ps_base::line::Line;
use ps_base::trap::Trap;

/// How a run ended, as `docs/language.md` lists the ends.
#[derive(Clone, Copy)]
pub enum RunEnd {
    Done,
    Trapped { trap: Trap, line: Line },
    OutOfTurns,
}
