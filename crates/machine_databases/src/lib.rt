//! What the machine does with the calls of the library on databases, whatever the residence of the objects: each call asks first, by which the directory is
//! known, and is answered then.
#![tactic(auto)]

pub mod ask;
pub mod calls;
mod created;
mod opened;
pub mod refusals;
mod roots;
mod sources;
