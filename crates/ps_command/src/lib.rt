//! The commands: a run of a PS-algol text, a new volume, or a text that tells of the program, from what was read of the words to the status.
//!
//! `ps_args::read_words` reads the words. The way from there is `command::psalgol`, `prepare::prepare`, which reads and compiles, and then `execute::execute`, which
//! attaches the volume and runs the machine of machine_run. `ps_causes` says why each answer comes.
#![tactic(auto)]

pub mod command;
mod compile;
mod execute;
mod prepare;
mod source_fault;

pub use command::psalgol;
pub use machine_run::obj_layout;
pub use ps_causes::{obj_store, ps_args};
