//! Tests of stores of objects over a host in memory.
#![tactic(auto)]

#[cfg(test)]
mod calls;
#[cfg(test)]
mod damage;
#[cfg(test)]
mod objects;
#[cfg(test)]
mod pins;
#[cfg(test)]
mod stopping;
