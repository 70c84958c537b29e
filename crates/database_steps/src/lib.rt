//! What the steps of the stepping machine do to what a run holds of databases: no code.
#![tactic(auto)]

mod laws;

pub use laws::{
    no_next_database_is_open, plain_steps_are_quiet, plain_steps_keep_databases, runs_begin_alone,
    steps_are_in_the_events_of_a_run, steps_keep_runs_alone, ways_keep_runs_alone,
};
pub use ps_code;
pub use ps_heap;
pub use ps_meaning;
pub use ps_stepping;
pub use reaching;
