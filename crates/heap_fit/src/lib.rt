//! Which heaps that were kept are fit: values of the types of their places, and bodies that are fit for the scopes round them. There is no code.
#![tactic(auto)]

mod laws;

pub use laws::{
    bodies_stay_fit, commits_have_fit_databases, literals_make_fit_procedures,
    mentioned_names_hold_values, no_scope_is_its_own_parent, runs_keep_databases_fit,
    typed_bodies_are_fit, typed_programs_are_fit,
};
