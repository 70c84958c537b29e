//! No code: what a command answers, and why; and laws, which say what the causes of an answer exclude.
#![tactic(auto)]

mod laws;

pub use laws::{
    damaged_volume_is_refused, first_fault_is_told, first_fault_is_unique,
    lacked_input_is_unreadable, lacked_name_is_unreadable, long_input_is_refused,
    long_text_is_refused, no_command_gets_usage, no_volume_is_refused, output_fault_gets_8,
    program_excludes_fault, program_is_run, text_is_told, volume_is_made, volume_there_is_kept,
};
pub use ps_args;
pub use ps_args::ps_scan;
pub use ps_parse;
pub use ps_volumes;
pub use ps_volumes::{obj_store, ps_reports};
