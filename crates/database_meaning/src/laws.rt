ghost use Rattle.database_meaning.specs.TableLaws.{AreFiniteMaps};
ghost use Rattle.database_meaning.specs.SamePrograms.{ProgramsGoTheSame};
ghost use Rattle.database_meaning.specs.SameRuns.{StayTheSame};
ghost use Rattle.database_meaning.specs.Laws.{ComputedIsLeast, IdsAreKept, SameIsAnEquivalence, HomesStay, ReachedAreCommitted, CommittedAreClosed, HomesAreTotal, StepsAreInOrder, TouchedOnce, RunsStayRight};

/// The newly reached objects, as they are computed, are the least set that the definition names.
pub fn the_computed_set_is_the_least()
    ensures { ComputedIsLeast }
{}

/// A commit that saves keeps each object under its id, and the directory.
pub fn a_commit_keeps_ids()
    ensures { IdsAreKept }
{}

/// An object that has a home keeps it through each commit.
pub fn homes_stay()
    ensures { HomesStay }
{}

/// Exactly the committed and the newly reached objects are committed after a commit that saves.
pub fn what_is_reached_is_committed()
    ensures { ReachedAreCommitted }
{}

/// After a commit that saves, committed objects refer to committed ones alone.
pub fn what_is_committed_is_closed()
    ensures { CommittedAreClosed }
{}

/// Each newly reached object has a first database that reaches it, and no other object has one.
pub fn newly_reached_objects_get_homes()
    ensures { HomesAreTotal }
{}

/// When a commit is refused, does nothing, or saves.
pub fn steps_of_a_commit()
    ensures { StepsAreInOrder }
{}

/// An object that is touched again is not counted again.
pub fn a_touch_counts_once()
    ensures { TouchedOnce }
{}

/// To be the same heap but for the ids of objects is reflexive, symmetric and transitive.
pub fn renaming_is_an_equivalence()
    ensures { SameIsAnEquivalence }
{}

/// A table is a finite map, in key order: what is entered is found, all else stays, and the next entry is the least one above. It keeps its kind of keys.
pub fn tables_are_finite_maps()
    ensures { AreFiniteMaps }
{}

/// What a run holds stays as the laws of commits ask for: at its start, through each call of the library, and where an object is made or a place assigned.
pub fn runs_stay_right()
    ensures { RunsStayRight }
{}

/// Runs over heaps that are the same but for ids stay the same but for ids: at their start, where an object is made or a place assigned, and through each call of the library, with the same events and with commits of the same heaps.
pub fn runs_over_the_same_heap_stay_the_same()
    ensures { StayTheSame }
{}

/// A program over heaps that are the same but for ids has the same events but for ids, where it is given the same turns, input and replies: it asks and outputs the same, with the same counted bytes, and commits heaps that are the same but for ids.
pub fn programs_over_the_same_heap_go_the_same()
    ensures { ProgramsGoTheSame }
{}
