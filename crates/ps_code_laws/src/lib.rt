//! Laws of the code of a fit program that cost more to prove than its definitions: no code stands on them.
#![tactic(auto)]

mod laws;

pub use laws::{
    body_runs_as_meant, program_runs_as_meant, programs_run_as_meant_over_kept_heaps,
    typed_programs_fit, typed_programs_run_as_meant,
};
