//! What a run holds of the heap and of databases, as area, vault and what is open in code show it. Definitions and laws; no code.
#![tactic(auto)]

mod laws;

pub use db_dir;
pub use laws::{
    a_new_table_is_held, a_run_begins_with_nothing, an_object_gets_the_next_id,
    assigned_values_are_writes, counts_are_nothing_to_what_is_held, created_databases_are_held,
    enters_keep_what_a_run_holds, gains_keep_what_a_run_holds, makings_are_gains,
    opened_databases_are_held, pids_are_below_the_used_words, runs_that_hold_alike_are_held_alike,
    the_directory_is_known, touches_are_gains, writes_keep_what_a_run_holds,
};
pub use reach_commit;
