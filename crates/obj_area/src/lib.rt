//! The memory that objects lie in: one allocation, taken once and handed out word by word from its
//! low end. The contracts see it as a list of words and a size.
#![tactic(auto)]

pub mod area;
mod spelling;
