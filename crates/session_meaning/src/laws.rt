ghost use Rattle.session_meaning.specs.Laws.{ProgramsShowTheirEvents, RunsShowWhatIsMeant};

use session_run::machine_core::obj_layout::vault::Vault;

/// Between two states of a vault, of which what a crash left and what a read gave at the first stood for a heap, a run shows the events that its program means over that heap: at each moment a
/// prefix of their output was output, and a crash leaves the heap of the last commit among those that were done, or the one of the next, whole.
pub fn runs_show_what_is_meant<V: Vault>()
    ensures { (old new : V) → RunsShowWhatIsMeant V.outside (V.outside old) (V.outside new) }
{}

/// Between two states of a vault, of which the first stood for a heap when the unit of a program was loaded beside it, a run from there shows the events of the program over
/// that heap.
pub fn programs_show_their_events<V: Vault>()
    ensures { (old new : V) → ProgramsShowTheirEvents V.outside (V.outside old) (V.outside new) }
{}
