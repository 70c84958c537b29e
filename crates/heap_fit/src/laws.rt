ghost use Rattle.heap_fit.specs.Kept.{CommitsHaveFitDatabases, RunsKeepDatabasesFit};
ghost use Rattle.heap_fit.specs.Laws.{NoOwnParents};
ghost use Rattle.heap_fit.specs.Going.{BodiesStayFit, LiteralsMakeFitProcedures, MentionedNamesHoldValues};
ghost use Rattle.heap_fit.specs.Typed.{TypedBodiesAreFit, TypedProgramsAreFit};

use ps_fit_laws::bodies_take_and_give_values;
use ps_running_laws::typed_program_runs;
use ps_type_text::{class_texts_tell_classes_apart, type_texts_tell_types_apart};
use ps_typing_laws::typed_program_is_well_typed;

/// In a fit heap no scope is its own parent, directly or through parents.
pub fn no_scope_is_its_own_parent()
    ensures { NoOwnParents }
{}

/// A body that has types by the rules, inside any scopes, and that runs, is fit for them, and with it each literal in it; its slots are all from 0 on, in their order.
pub fn typed_bodies_are_fit()
    ensures { TypedBodiesAreFit }
{}

/// The program of each tree whose leaves fit is a fit body, and so is each literal in it for the scopes round it.
pub fn typed_programs_are_fit()
    ensures { TypedProgramsAreFit }
{
    typed_program_is_well_typed();
    typed_program_runs();
    bodies_take_and_give_values();
}

/// A body that is fit for some scopes is fit where more names have had their declarations, and where further scopes are round these.
pub fn bodies_stay_fit()
    ensures { BodiesStayFit }
{}

/// A literal in a fit clause makes a fit procedure.
pub fn literals_make_fit_procedures()
    ensures { LiteralsMakeFitProcedures }
{}

/// Each kept name that a procedure in a fit heap mentions holds a value of its type: where a name holds nil instead, no procedure reads it.
pub fn mentioned_names_hold_values()
    ensures { MentionedNamesHoldValues }
{
    type_texts_tell_types_apart();
    class_texts_tell_classes_apart();
}

/// From a fit heap on, a run saves heaps whose databases and homes are as a fit heap has them: at most 256 databases with names and passwords within the limits, no name twice, a table as each root, and each reached object there and at home in a database.
pub fn runs_keep_databases_fit()
    ensures { RunsKeepDatabasesFit }
{}

/// Each commit of a run over a fit heap, in which each reference is to an object that is there, saves a heap whose databases and homes are as a fit heap has them, whatever body is run.
pub fn commits_have_fit_databases()
    ensures { CommitsHaveFitDatabases }
{}
