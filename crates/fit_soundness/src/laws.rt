ghost use Rattle.fit_soundness.specs.Laws.{CheckedCommitsSaveFitHeaps, CommitsSaveFitHeaps, FitClausesComeToValues, FitHeapsStartFit, FitProceduresAnswer, FitProgramsComeToValues, FitWhereDeclared, MentionedIsDeclared, SeriesLeaveFitHeaps};

use heap_fit::typed_programs_are_fit;
use ps_type_text::{class_texts_tell_classes_apart, type_texts_tell_types_apart};
use ps_typing_laws::typed_program_is_well_typed;

/// From a state that is fit for it, a fit clause comes to a value of its type, and leaves what is fit: each procedure that it calls does, with each scan, literal, block and loop in it.
pub fn fit_clauses_come_to_values()
    ensures { FitClausesComeToValues }
{
    type_texts_tell_types_apart();
    class_texts_tell_classes_apart();
}

/// A procedure that is called in a fit state, with arguments of its parameters' types, answers a value of the type that it gives, or the run ends in a trap or without turns.
pub fn fit_procedures_answer()
    ensures { FitProceduresAnswer }
{
    type_texts_tell_types_apart();
    class_texts_tell_classes_apart();
}

/// What a fit body mentions of the scopes round it is declared there.
pub fn mentioned_names_are_declared()
    ensures { MentionedIsDeclared }
{}

/// Where what it mentions is declared a fit body is fit.
pub fn bodies_are_fit_where_declared()
    ensures { FitWhereDeclared }
{}

/// A fit heap is the same as one without what no root reaches, over which a run begins with what is fit for it.
pub fn fit_heaps_start_fit()
    ensures { FitHeapsStartFit }
{
    type_texts_tell_types_apart();
    class_texts_tell_classes_apart();
}

/// A fit program over a fit heap comes to a value of its type, or its run ends in a trap or without turns: it is never stuck. What no root reaches makes no difference.
pub fn fit_programs_come_to_values()
    ensures { FitProgramsComeToValues }
{
    type_texts_tell_types_apart();
    class_texts_tell_classes_apart();
}

/// Each commit of a fit program over a fit heap saves a fit heap.
pub fn commits_save_fit_heaps()
    ensures { CommitsSaveFitHeaps }
{
    type_texts_tell_types_apart();
    class_texts_tell_classes_apart();
}

/// Each commit of a program that passes the check, over a fit heap, saves a fit heap.
pub fn checked_commits_save_fit_heaps()
    ensures { CheckedCommitsSaveFitHeaps }
{
    type_texts_tell_types_apart();
    class_texts_tell_classes_apart();
    typed_program_is_well_typed();
    typed_programs_are_fit();
}

/// Programs that pass the check leave a fit heap, one after the other from a fit heap on, as the one without databases is; and so is each that they commit.
pub fn series_leave_fit_heaps()
    ensures { SeriesLeaveFitHeaps }
{
    type_texts_tell_types_apart();
    class_texts_tell_classes_apart();
    typed_program_is_well_typed();
    typed_programs_are_fit();
}
