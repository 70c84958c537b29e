use crate::caller::Caller;
use crate::databases::Databases;
use crate::input::Input;
use crate::run_end::RunEnd;
use crate::stepped::Writing;
use frame_stack::FrameStack;
use joint_ops::proc_values::reading::CodePlace;
use joint_ops::swizzle::fault::SwizzleFault;
use objects::Value;
use objects::objects::Objects;
use ps_base::code_unit::Frame;

/// The most words of one frame on each stack: its locals, and what is pushed above them.
pub const FRAME_WORDS: usize = 512;

/// The most values that an object is made of: all that one frame may have on both stacks.
pub const MOST_VALUES: usize = 2 * FRAME_WORDS;

/// The most bodies that wait for calls to come back.
pub const MOST_CALLERS: usize = 2_000;

/// How many words each stack has memory for: those of the bodies that wait, and of the one that runs.
pub const ALL_WORDS: usize = (MOST_CALLERS + 1) * FRAME_WORDS;

/// A run of a unit: the objects of its area, and values that an object is made of; the body that runs, by its code object with the place of its bytes and
/// its frame, its scope, the offset of its next instruction in bytes; the two stacks; the bodies that wait, the last at the end; the input, the turns
/// that are left, and the databases. Each stack has the words of the bodies that wait, one body after the other, and then those of the body that runs: its locals first, and
/// above them what is pushed, its top at the end. A number is an int, or a bool as 0 or 1. On the stack of references 0 is nil, and each other word is the
/// index of an object in the area; so is the scope, which is 0 for none. After all that stand what the last write was, the end that the run came to, and
/// the fault that it broke off with; each means something only where a step was answered that says so, and a text of a write lies in the area all the
/// same.
pub struct Machine {
    pub objects: Objects,
    pub values: Vec<Value>,
    pub code: u32,
    pub place: CodePlace,
    pub frame: Frame,
    pub scope: u32,
    pub at: u32,
    pub nums: FrameStack<i32>,
    pub refs: FrameStack<u32>,
    pub callers: Vec<Caller>,
    pub input: Input,
    pub turns: u64,
    pub databases: Databases,
    pub writing: Writing,
    pub end: RunEnd,
    pub fault: SwizzleFault,
}

impl Drop for Machine {
    fn drop(self) {
        let Machine {
            objects: _,
            values: _,
            code: _,
            place: _,
            frame: _,
            scope: _,
            at: _,
            nums: _,
            refs: _,
            callers: _,
            input: _,
            turns: _,
            databases: _,
            writing: _,
            end: _,
            fault: _,
        } = self;
    }
}
