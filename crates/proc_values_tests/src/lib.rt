//! Units loaded into a small area, word by word, and what is read of them.
#![tactic(auto)]

#[cfg(test)]
mod damaged;
#[cfg(test)]
mod full;
#[cfg(test)]
mod loaded;
#[cfg(test)]
mod sample;
