//! Tests of page maps.
#![tactic(auto)]

#[cfg(test)]
mod calls;
#[cfg(test)]
mod largest;
#[cfg(test)]
mod map_pages;
#[cfg(test)]
mod plain;
#[cfg(test)]
mod random;
#[cfg(test)]
mod steps;
#[cfg(test)]
mod switching;
