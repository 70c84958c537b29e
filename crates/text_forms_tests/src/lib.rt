//! Tests of what the texts of classes, of scopes and of vectors' types tell of places.
#![tactic(auto)]

#[cfg(test)]
mod strict;
#[cfg(test)]
mod texts;
