//! What a volume stands for: the heap that it keeps, of objects, tables and databases.
#![tactic(auto)]

pub mod laws;
