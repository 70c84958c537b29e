//! Tables of cases: rows with a code and a name each, found by either.
#![tactic(auto)]

pub mod find;
pub mod row;
