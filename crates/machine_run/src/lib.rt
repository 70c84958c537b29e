//! The machine that runs a unit of code over the objects of an area and of a vault: it decodes the bytes of the unit's code object one instruction after
//! the other, and does what the stepping machine's definition says of each. It takes any unit, any area and any vault: it never leaves the code, a stack,
//! the frame or the area, and it ends.
#![tactic(auto)]

pub mod laws;
mod library;
pub mod load;
pub mod run;
mod steps;
mod tell;

pub use machine_core::{Machine, RunEnd, ps_code, swizzle};
pub use steps::{act, step};
pub use vault_output;
pub use vault_output::obj_layout;
