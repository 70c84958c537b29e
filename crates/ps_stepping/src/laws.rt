ghost use Rattle.std.specs.Prelude.{◌≡◌, Bool, true, ℕ, List, [], ◌∷◌, ◌++◌};
ghost use Rattle.ps_code.specs.ps_base.declared.instr.Instr.{Instr};
ghost use Rattle.ps_heap.specs.Ends.{End};
ghost use Rattle.ps_heap.specs.Events.{Event, Finish};
ghost use Rattle.ps_stepping.specs.Config.{Config, code_in, IsAt};
ghost use Rattle.ps_stepping.specs.Effects.{effect_of, HasEffect};
ghost use Rattle.ps_stepping.specs.Machine.{Step, Goes, Stops, Stuck, and_touched, act, Steps, RunsBy, Runs};
ghost use Rattle.ps_stepping.specs.Path.{Reaches, Finishes};

/// At an offset of the code there is one instruction at most, and a configuration has one step.
pub fn step_is_unique()
    ensures instruction { (c : Config) (i j : Instr) → IsAt (code_in c.unit) c.at i → IsAt (code_in c.unit) c.at j → i ≡ j }
    ensures step { (c : Config) (s t : Step) → Steps c s → Steps c t → s ≡ t }
{}

/// From each configuration that a run reaches, the machine reaches an end: it is never stuck. The events from there on are the
/// rest of the run's.
pub fn rest_of_a_run()
    ensures ends { (total : List Event) (c last : Config) (before : List Event) → Runs total c [] → Reaches c before last →
        (behind : List Event) × Finishes last behind }
    ensures rest { (total : List Event) (c last : Config) (before behind : List Event) → Runs total c [] → Reaches c before last →
        Finishes last behind → total ≡ before ++ behind }
    ensures end { (total : List Event) (c last : Config) (before : List Event) (e : End) (touched : ℕ) → Runs total c [] → Reaches c before last →
        Steps last (Stops e touched) → total ≡ before ++ Finish e (and_touched touched last.store.held.counted) ∷ [] }
    ensures goes { (total : List Event) (c last : Config) (before : List Event) → Runs total c [] → Reaches c before last → Steps last Stuck → ⊥ }
    ensures front { (total : List Event) (c last : Config) (before : List Event) → Runs total c [] → Reaches c before last →
        (behind : List Event) × (total ≡ before ++ behind) }
{}

/// A run whose instructions may all run is a run, and from each configuration that it reaches the next instruction is one that may run.
pub fn instructions_of_a_run()
    ensures is_run { (may : Instr → Bool) (total : List Event) (c : Config) (so_far : List Event) → RunsBy may total c so_far → Runs total c so_far }
    ensures each { (may : Instr → Bool) (total : List Event) (c last : Config) (before : List Event) (i : Instr) → RunsBy may total c [] →
        Reaches c before last → IsAt (code_in last.unit) last.at i → may i ≡ true }
{}

/// A step that goes on takes from the two stacks and leaves on them what the table says of its instruction (`docs/formats.md`).
pub fn steps_have_their_effects()
    ensures { (i : Instr) (c next : Config) (events : List Event) → act i c ≡ Goes events next → HasEffect (effect_of i) c next }
{}
