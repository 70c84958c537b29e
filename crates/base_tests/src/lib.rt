//! Tests of the types that the layers share, of their texts, and of the search of a table of cases.
#![tactic(auto)]

#[cfg(test)]
mod cases;
#[cfg(test)]
mod trees;
#[cfg(test)]
mod type_texts;
#[cfg(test)]
mod types;
#[cfg(test)]
mod units;
