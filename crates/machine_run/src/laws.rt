ghost use Rattle.std.specs.Prelude.{◌≡◌, ◌≤◌, List, [], ◌∷◌, ◌++◌};
ghost use Rattle.ps_base.specs.CodeUnit.{unit, no_constants};
ghost use Rattle.machine_core.specs.ps_stepping.Config.{Config, start};
ghost use Rattle.machine_core.specs.ps_stepping.Machine.{Step, Stuck, Steps, RunsBy};
ghost use Rattle.machine_core.specs.ps_stepping.Plain.{is_plain};
ghost use Rattle.machine_core.specs.ps_heap.Events.{Event, count_of};
ghost use Rattle.machine_core.specs.ps_meaning.Meaning.{Store};
ghost use Rattle.machine_run.specs.Loaded.{no_locals};

/// A configuration has one step, so what a run returns is the only thing that it can return.
#[tactic(auto, using(crate::proofs::Single::one_step))]
pub fn one_step()
    ensures { (c : Config) (s t : Step) → Steps c s → Steps c t → s ≡ t }
{}

/// In a run whose instructions this machine all has, the next event to come counts no fewer bytes than are counted before it.
#[tactic(auto, using(crate::proofs::Counting::next_counted))]
pub fn counts_never_fall()
    ensures { (total : List Event) (c : Config) (so_far : List Event) → RunsBy is_plain total c so_far → (e : Event) × (rest : List Event) × (total ≡ so_far ++ e ∷ rest) × (c.store.held.counted ≤ count_of e) }
{}

/// Of a unit without code, and so of one whose frame is too large, there is no first step.
#[tactic(auto, using(crate::proofs::Single::no_first_step))]
pub fn no_code_is_damage()
    ensures { (store : Store) → Steps (start (unit [] no_constants no_locals) store) Stuck }
{}
