ghost use Rattle.std.specs.Prelude.{ℕ};
ghost use Rattle.ps_meaning.specs.ps_program.Node.{BodyNode};
ghost use Rattle.ps_meaning.specs.ps_heap.Values.{Routine};
ghost use Rattle.ps_meaning.specs.Runs.{Given, events_with};
ghost use Rattle.count_laws.specs.Heavier.{Weighs, AreLess};

/// Where the code of procedures weighs more a program has the same events, each with as many counted bytes or more.
pub fn heavier_code_counts_more()
    ensures { (light heavy : Routine → ℕ) (given : Given) (program : BodyNode) → Weighs light heavy
        → AreLess (events_with light given program) (events_with heavy given program) }
{}
