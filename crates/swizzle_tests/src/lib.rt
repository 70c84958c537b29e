//! Objects of a small area, call by call.
#![tactic(auto)]

#[cfg(test)]
mod objects;
#[cfg(test)]
mod pids;
#[cfg(test)]
mod texts;
