//! Closures: made in a small area, and read from stores of forged ones.
#![tactic(auto)]

#[cfg(test)]
mod forged;
#[cfg(test)]
mod made;
#[cfg(test)]
mod scene;
