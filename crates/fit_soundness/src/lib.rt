//! Fit bodies over fit heaps never get stuck: each clause comes to a value of its type, and what a commit saves is fit again. There is no code.
#![tactic(auto)]

mod laws;

pub use laws::{
    bodies_are_fit_where_declared, checked_commits_save_fit_heaps, commits_save_fit_heaps,
    fit_clauses_come_to_values, fit_heaps_start_fit, fit_procedures_answer,
    fit_programs_come_to_values, mentioned_names_are_declared, series_leave_fit_heaps,
};
