//! The state of the machine that runs units of code over objects of an area and of a vault: its two stacks, with the words of the body that runs and of
//! the bodies that wait, its offset, and its input; and what instructions over numbers and references alone, calls and returns do with all that.
#![tactic(auto)]

mod body;
mod caller;
pub mod calls;
pub mod current;
mod databases;
pub mod ends;
mod input;
pub mod jumps;
pub mod loops;
mod machine;
pub mod returns;
mod run_end;
pub mod stacks;
mod stepped;
pub mod values;
pub mod writes;

pub use body::Body;
pub use caller::Caller;
pub use databases::{Databases, MOST_DATABASES};
pub use frame_stack;
pub use input::Input;
pub use joint_held;
pub use joint_held::reach_commit::commit_walk::homes::Source;
pub use joint_ops;
pub use joint_ops::{heap_ops, heap_places, heap_texts, obj_layout, proc_values, swizzle};
pub use machine::{ALL_WORDS, FRAME_WORDS, MOST_CALLERS, MOST_VALUES, Machine};
pub use objects;
pub use ps_stepping::{ps_code, text_forms};
pub use run_end::RunEnd;
pub use stepped::{Item, Stepped, Writing};
