ghost use Rattle.std.specs.Prelude.{◌≡◌, Bool, ℕ, suc, List, [], ◌++◌, length};
ghost use Rattle.reaching.specs.Reaching.{IsIn};
ghost use Rattle.ps_code.specs.ps_base.declared.instr.Instr.{Instr};
ghost use Rattle.ps_heap.specs.Databases.{open_for_writing};
ghost use Rattle.ps_heap.specs.Events.{Event};
ghost use Rattle.ps_heap.specs.Held.{Held};
ghost use Rattle.ps_heap.specs.Values.{Routine};
ghost use Rattle.ps_meaning.specs.Runs.{Given, fresh_store};
ghost use Rattle.ps_stepping.specs.Config.{Config};
ghost use Rattle.ps_stepping.specs.Machine.{Goes, Steps, Runs, RunsBy};
ghost use Rattle.ps_stepping.specs.Path.{Reaches};
ghost use Rattle.ps_stepping.specs.Plain.{PlainSteps};
ghost use Rattle.database_steps.specs.Databases.{SameDatabases, AreNamed, IsAlone};
ghost use Rattle.database_steps.specs.Quiet.{AreQuiet};

/// What a run holds of databases is the same after a step of an instruction that makes, opens and commits none.
pub fn plain_steps_keep_databases()
    ensures { (c next : Config) (events : List Event) → PlainSteps c (Goes events next) → SameDatabases c.store.held next.store.held }
{}

/// Such a step asks for nothing, and commits nothing.
pub fn plain_steps_are_quiet()
    ensures { (c next : Config) (events : List Event) → PlainSteps c (Goes events next) → AreQuiet events }
{}

/// A run that is alone is so after each step, also of one that makes or opens a database, or commits.
pub fn steps_keep_runs_alone()
    ensures { (c next : Config) (events : List Event) → Steps c (Goes events next) → IsAlone c.store.held → IsAlone next.store.held }
{}

/// A run that is alone is so wherever it comes.
pub fn ways_keep_runs_alone()
    ensures { (c last : Config) (events : List Event) → Reaches c events last → IsAlone c.store.held → IsAlone last.store.held }
{}

/// Where each open database is one of the directory, the one that is made next isn't open for writing yet.
pub fn no_next_database_is_open()
    ensures { (h : Held) → AreNamed h → IsIn (suc (length h.directory)) (open_for_writing h.openings) → ⊥ }
{}

/// A run that is given no replies begins alone, whatever heap was kept.
pub fn runs_begin_alone()
    ensures { (weigh : Routine → ℕ) (given : Given) (counted : ℕ) → given.replies ≡ [] → IsAlone (fresh_store weigh given counted).held }
{}

/// The events of a step that goes on from where a run comes are among the run's, behind those on the way there.
pub fn steps_are_in_the_events_of_a_run()
    ensures run { (total so_far events more : List Event) (c last next : Config) → Runs total c so_far → Reaches c events last →
        Steps last (Goes more next) → (rest : List Event) × (total ≡ so_far ++ (events ++ (more ++ rest))) }
    ensures by { (may : Instr → Bool) (total so_far events more : List Event) (c last next : Config) → RunsBy may total c so_far → Reaches c events last →
        Steps last (Goes more next) → (rest : List Event) × (total ≡ so_far ++ (events ++ (more ++ rest))) }
{}
