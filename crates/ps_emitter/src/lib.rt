//! The code of one body while it is made: its instructions, its constants, and how many locals it takes.
//!
//! An `Emitter` puts one after the other, and writes the targets of jumps over those that are there. Beside it stand the choices among
//! instructions, what is known of the type of a value that is called, and the way down a chain of first parts.
#![tactic(auto)]

pub mod choices;
pub mod emitter;
pub mod forward;
pub mod frame;
pub mod known;
pub mod names;
pub mod naming;
pub mod signature;
pub mod spine;
pub mod turns;

pub use ps_code;
