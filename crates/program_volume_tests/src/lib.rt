//! Tests of the program over its volume: how it is made, attached and left, what is output where there is none, and what commits leave of it.
#![tactic(auto)]

#[cfg(test)]
mod commands;
#[cfg(test)]
mod files;
#[cfg(test)]
mod forged;
#[cfg(test)]
mod kept;
#[cfg(test)]
mod large;
#[cfg(test)]
mod making;
#[cfg(test)]
mod moved;
#[cfg(test)]
mod stops;
#[cfg(test)]
mod stored;
