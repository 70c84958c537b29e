//! Error records of each fault by each call, read back, and areas that have no room for one of their objects.
#![tactic(auto)]

#[cfg(test)]
mod room;
#[cfg(test)]
mod texts;
