//! What is so of tables, databases and commits, over the definitions of `ps_heap`. There is no code.
#![tactic(auto)]

mod laws;

pub use laws::{
    a_commit_keeps_ids, a_touch_counts_once, homes_stay, newly_reached_objects_get_homes,
    programs_over_the_same_heap_go_the_same, renaming_is_an_equivalence,
    runs_over_the_same_heap_stay_the_same, runs_stay_right, steps_of_a_commit,
    tables_are_finite_maps, the_computed_set_is_the_least, what_is_committed_is_closed,
    what_is_reached_is_committed,
};
