//! What a space stands for: the heap that it keeps, of objects, tables and databases. There is no code.
#![tactic(auto)]

mod laws;

pub use heap_meaning;
pub use laws::{
    a_space_without_a_directory_has_no_database, fitting_bodies_have_units,
    ids_of_a_space_dont_matter,
};
