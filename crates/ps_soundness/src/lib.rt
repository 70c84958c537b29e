//! Values have their types: a law of the meaning, over all clauses that work on structures, vectors and strings, and where the scopes round a
//! clause are known, over those with scopes, procedures and input too.
#![tactic(auto)]

mod laws;

pub use laws::{values_have_their_types, values_in_scopes_have_their_types};
